ghost use Rattle.std.specs.Prelude.{◌≡◌};

use dip_lists::Items;
use dip_sets::Name;
use net_cells::CellOp;

/// A wire of a builder.
#[derive(Debug, Clone, Copy, PartialEq, Eq)]
pub struct Wire {
    /// Its place among the builder's wires, in the order of making.
    pub number: u64,
    /// Its width in bits.
    pub width: u32,
}

/// Wires.
pub type Wires = Items<Wire>;

/// The firsts of a row of wires of one bit.
#[derive(Debug, Drop)]
pub struct Firsts {
    /// A wire for each: 1 exactly where that one is and none before it.
    pub wires: Wires,
    /// 1 exactly where one of them is, or one before the row was.
    pub seen: Wire,
}

impl Firsts {
    /// The wires alone.
    pub fn into_wires(self) -> Wires
        ensures { result ≡ self.wires }
    {
        let Firsts { wires, .. } = self;
        wires
    }
}

/// What gives a wire its value.
#[derive(Debug, Drop)]
pub enum Kind {
    /// An input with this name.
    Input(Name),
    /// A register.
    Register,
    /// An operator on wires with these numbers.
    Gate(CellOp),
}

/// A wire: its width in bits, and what gives it its value.
#[derive(Debug, Drop)]
pub struct Item {
    /// The width in bits.
    pub width: u32,
    /// What gives the value.
    pub kind: Kind,
}

/// A wire that was made. A register that is driven has the number of its next wire beside it.
#[derive(Debug, Drop)]
pub struct Made {
    /// The wire.
    pub item: Item,
    /// The wire that is put before it, where it is a register that is driven.
    pub next: Option<u64>,
}
