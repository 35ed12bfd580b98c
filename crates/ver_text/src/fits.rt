ghost use Rattle.std.specs.Prelude.{◌≡◌, ◌^◌, slice_index, nat_lt};
ghost use Rattle.ver_text.specs.Fits as spec;

use net_cells::CellOp;

// Whether a number has at most so many bits.
fn has_bits(value: u64, width: u32) -> bool
    ensures { result ≡ nat_lt value (2 ^ width) }
{
    if width >= u64::BITS {
        return true;
    }
    value >> width == 0
}

fn is_net(widths: &[u32], net: u64) -> bool
    ensures { result ≡ spec.is_net widths.now net }
{
    net < widths.len() as u64
}

/// The width of a net, 0 where there is none.
#[tactic(auto, using(crate::proofs::Lists::index_get))]
pub fn width_at(widths: &[u32], net: u64) -> u32
    ensures { result ≡ slice_index widths.now net }
{
    widths.get(net as usize).copied().unwrap_or(0)
}

fn has_width(widths: &[u32], net: u64, width: u32) -> bool
    ensures { result ≡ spec.has_width widths.now net width }
{
    is_net(widths, net) && width_at(widths, net) == width
}

fn have_width(widths: &[u32], x: u64, y: u64, width: u32) -> bool
    ensures { result ≡ spec.have_width widths.now x y width }
{
    has_width(widths, x, width) && has_width(widths, y, width)
}

fn have_one_width(widths: &[u32], x: u64, y: u64) -> bool
    ensures { result ≡ spec.have_one_width widths.now x y }
{
    is_net(widths, x) && is_net(widths, y) && width_at(widths, x) == width_at(widths, y)
}

// Whether the widths of two nets add up to this one.
fn is_joined(widths: &[u32], x: u64, y: u64, width: u32) -> bool
    ensures { result ≡ spec.is_cell widths.now width (CellOp.Concat x y) }
{
    is_net(widths, x)
        && is_net(widths, y)
        && u64::from(width_at(widths, x)) + u64::from(width_at(widths, y)) == u64::from(width)
}

fn is_selected(widths: &[u32], net: u64, hi: u32, lo: u32, width: u32) -> bool
    ensures { result ≡ spec.is_cell widths.now width (CellOp.Select net hi lo) }
{
    is_net(widths, net) && hi < width_at(widths, net) && lo <= hi && width == hi - lo + 1
}

/// Whether among nets of these widths a cell of so many bits has this operator.
pub fn is_cell(widths: &[u32], width: u32, op: CellOp) -> bool
    ensures { result ≡ spec.is_cell widths.now width op }
{
    match op {
        CellOp::Const(value) => has_bits(value, width),
        CellOp::Not(x) => has_width(widths, x, width),
        CellOp::And(x, y)
        | CellOp::Or(x, y)
        | CellOp::Xor(x, y)
        | CellOp::Add(x, y)
        | CellOp::Sub(x, y) => have_width(widths, x, y, width),
        CellOp::Eq(x, y) | CellOp::Less(x, y) => width == 1 && have_one_width(widths, x, y),
        CellOp::Mux(pick, x, y) => { has_width(widths, pick, 1) && have_width(widths, x, y, width) }
        CellOp::Concat(x, y) => is_joined(widths, x, y, width),
        CellOp::Select { net, hi, lo } => is_selected(widths, net, hi, lo, width),
    }
}
