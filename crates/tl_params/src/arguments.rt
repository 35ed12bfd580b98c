ghost use Rattle.std.specs.Prelude.{◌≡◌, IfSome};
ghost use Rattle.tl_params.specs.Arguments as spec;

use crate::Args;
use dip_sets::Sizes;

/// Whether a bus may have this width, in bytes: 1, 2, 4 and 8 are the widths of buses.
pub fn is_width(bytes: u32) -> bool
    ensures { result ≡ spec.is_width bytes }
{
    matches!(bytes, 1 | 2 | 4 | 8)
}

/// What a fragmenter's arguments state, in bytes.
#[derive(Clone, Copy, Debug, PartialEq, Eq)]
pub struct Fragments {
    /// A piece, as which larger transfers go on.
    pub piece: u32,
    /// The largest transfer that is taken.
    pub largest: u32,
}

/// A fragmenter's arguments, a piece and the largest transfer; `None` exactly where they aren't two powers of
/// two in order, at most 256.
pub fn fragment_arguments(args: &Args) -> Option<Fragments>
    ensures value { result ≡ spec.fragment_arguments args.now }
    ensures sizes { IfSome result spec.AreFragments }
{
    match args.as_slice() {
        [piece, largest] => {
            let sizes = Sizes::new(*piece, *largest)?;
            Some(Fragments {
                piece: sizes.min(),
                largest: sizes.max(),
            })
        }
        _ => None,
    }
}

/// A shrinker's argument, its number of ids; `None` exactly where it isn't one number from 1 to 64.
pub fn shrink_argument(args: &Args) -> Option<u32>
    ensures { result ≡ spec.shrink_argument args.now }
{
    match args.as_slice() {
        [ids] if 1 <= *ids && *ids <= 64 => Some(*ids),
        _ => None,
    }
}
