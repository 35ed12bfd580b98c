ghost use Rattle.std.specs.Prelude.{◌≡◌, ◌+◌, ◌<◌, ◌≤◌, length, drop, take};
ghost use Rattle.ver_text.specs.Lexemes.{first_lexeme};
ghost use Rattle.ver_text.specs.Tokens.{token_bytes};

use crate::kind::Kind;
use crate::scan::{Lexeme, first_lexeme};

/// A token of a text.
#[derive(Clone, Copy, Debug, PartialEq, Eq)]
pub struct Token {
    /// What it is.
    pub kind: Kind,
    /// The place of its first byte.
    pub start: usize,
    /// How many bytes it has.
    pub length: usize,
}

/// The longest token or gap at a place of a text.
pub fn lexeme_at(text: &[u8], at: usize) -> Lexeme
    requires { at < length text.now }
    ensures lexeme { result ≡ first_lexeme (drop at text.now) }
    ensures within { at + result.more + 1 ≤ length text.now }
{
    first_lexeme(&text[at..])
}

/// The bytes from a place on.
pub fn from_place(text: &[u8], place: usize) -> &[u8]
    ensures { result.now ≡ drop place text.now }
{
    text.get(place..).unwrap_or(&[])
}

// At most so many bytes at the front.
fn front(text: &[u8], length: usize) -> &[u8]
    ensures { result.now ≡ take length text.now }
{
    text.get(..length).unwrap_or(text)
}

/// The bytes of a token of a text.
pub fn bytes_of(text: &[u8], token: Token) -> &[u8]
    ensures { result.now ≡ token_bytes text.now token }
{
    front(from_place(text, token.start), token.length)
}
