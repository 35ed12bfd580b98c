use dip_lists::Memory;
use thiserror::Error;

/// Why a text gives no netlist.
#[derive(Clone, Copy, Debug, PartialEq, Eq, Error)]
pub enum TextFault {
    /// The text spells none. It is refused at this place: by its syntax, at the start of its first token,
    /// or first byte that begins none, after which no continuation has the syntax, or at its length, where
    /// it ends too early; else by its parts, at the start of the first that isn't due.
    #[error("no netlist at byte {place}")]
    NotText {
        /// The number of the byte, from 0.
        place: usize,
    },
    /// Want of memory.
    #[error("out of memory")]
    Memory,
}

impl From<Memory> for TextFault {
    ghost use Rattle.std.specs.Prelude.{◌≡◌};
    ghost use Rattle.ver_text.specs.declared.fault.TextFault.TheVariants as fault;

    ghost from_gives = { λ _ e. e ≡ fault.Memory };

    fn from(_: Memory) -> TextFault {
        TextFault::Memory
    }
}
