ghost use Rattle.std.specs.Prelude.{◌≡◌, ◌≢◌, ◌≤◌, ◌+◌, ◌<◌, [], drop, length, not, slice_index, ◌==◌};
ghost use Rattle.std.specs.List.{prefix_len};
ghost use Rattle.dip_sets.specs.Names.{is_letter, is_name_byte};
ghost use Rattle.ver_text.specs.Lexemes as spec;

use crate::kind::Kind;

/// A token or a gap between tokens at the front of a text.
#[derive(Clone, Copy, Debug, PartialEq, Eq)]
pub struct Lexeme {
    /// What it is.
    pub kind: Kind,
    /// How many bytes it has behind its first.
    pub more: usize,
}

fn is_letter(byte: u8) -> bool
    ensures { result ≡ is_letter byte }
{
    byte.is_ascii_lowercase()
}

fn is_name_byte(byte: u8) -> bool
    ensures { result ≡ is_name_byte byte }
{
    byte.is_ascii_lowercase() || byte.is_ascii_digit() || byte == b'_'
}

fn is_digit(byte: u8) -> bool
    ensures { result ≡ spec.is_digit byte }
{
    byte.is_ascii_digit()
}

fn is_hex(byte: u8) -> bool
    ensures { result ≡ spec.is_hex byte }
{
    byte.is_ascii_digit() || (b'a'..=b'f').contains(&byte)
}

fn is_space(byte: u8) -> bool
    ensures { result ≡ spec.is_space byte }
{
    byte == b' ' || byte == b'\t' || byte == b'\n' || byte == b'\r'
}

// How many letters, digits and `_` a text has at its front.
fn word_length(text: &[u8]) -> usize
    ensures length { result ≡ prefix_len is_name_byte text.now }
    ensures within { result ≤ length text.now }
{
    let mut count = 0;
    for byte in text {
        if !is_name_byte(*byte) {
            break;
        }
        count += 1;
    }
    count
}

/// How many decimal digits a text has at its front.
pub fn digits_length(text: &[u8]) -> usize
    ensures length { result ≡ prefix_len spec.is_digit text.now }
    ensures within { result ≤ length text.now }
{
    let mut count = 0;
    for byte in text {
        if !is_digit(*byte) {
            break;
        }
        count += 1;
    }
    count
}

// How many hexadecimal digits a text has at its front.
fn hex_length(text: &[u8]) -> usize
    ensures length { result ≡ prefix_len spec.is_hex text.now }
    ensures within { result ≤ length text.now }
{
    let mut count = 0;
    for byte in text {
        if !is_hex(*byte) {
            break;
        }
        count += 1;
    }
    count
}

// How many bytes stand before the first line feed.
fn line_length(text: &[u8]) -> usize
    ensures length { result ≡ prefix_len spec.is_no_line_feed text.now }
    ensures within { result ≤ length text.now }
{
    let mut count = 0;
    for byte in text {
        if *byte == b'\n' {
            break;
        }
        count += 1;
    }
    count
}

// A keyword, or a name.
fn word_kind(word: &[u8]) -> Kind
    ensures { result ≡ spec.word_kind word.now }
{
    if word == b"module".as_slice() {
        return Kind::Module;
    }
    if word == b"input".as_slice() {
        return Kind::Input;
    }
    if word == b"output".as_slice() {
        return Kind::Output;
    }
    if word == b"reg".as_slice() {
        return Kind::Reg;
    }
    if word == b"wire".as_slice() {
        return Kind::Wire;
    }
    if word == b"assign".as_slice() {
        return Kind::Assign;
    }
    if word == b"always".as_slice() {
        return Kind::Always;
    }
    if word == b"posedge".as_slice() {
        return Kind::Posedge;
    }
    if word == b"endmodule".as_slice() {
        return Kind::Endmodule;
    }
    Kind::Name
}

// The keyword or name at the front of a text.
fn word(text: &[u8]) -> Lexeme
    ensures kind { result ≡ spec.word_lexeme text.now }
    ensures inside { 0 < length text.now → result.more < length text.now }
{
    let length = word_length(text);
    Lexeme {
        kind: word_kind(&text[..length]),
        more: length.saturating_sub(1),
    }
}

// How many bytes of a literal follow its width: none where no literal follows.
fn literal_tail(text: &[u8]) -> usize
    ensures length { result ≡ spec.literal_tail text.now }
    ensures within { result ≤ length text.now }
{
    if text.len() > 2 && text[0] == b'\'' && text[1] == b'h' && is_hex(text[2]) {
        3 + hex_length(&text[3..])
    } else {
        0
    }
}

// The number or literal at the front of a text.
fn numeral(text: &[u8]) -> Lexeme
    ensures kind { result ≡ spec.numeral_lexeme text.now }
    ensures inside { 0 < length text.now → result.more < length text.now }
{
    let digits = digits_length(text);
    let tail = literal_tail(&text[digits..]);
    if tail == 0 {
        return Lexeme {
            kind: Kind::Number,
            more: digits.saturating_sub(1),
        };
    }
    Lexeme {
        kind: Kind::Literal,
        more: (digits + tail).saturating_sub(1),
    }
}

// The byte at a place, 0 where there is none.
#[tactic(auto, using(crate::proofs::Lists::index_get))]
fn byte_at(text: &[u8], place: usize) -> u8
    ensures byte { result ≡ slice_index text.now place }
    ensures within { result ≢ 0 → place < length text.now }
{
    text.get(place).copied().unwrap_or(0)
}

// The comment at the front of a text, or the byte that begins none.
fn comment(text: &[u8]) -> Lexeme
    ensures kind { result ≡ spec.comment_lexeme text.now }
    ensures inside { 0 < length text.now → result.more < length text.now }
{
    if byte_at(text, 1) != b'/' {
        return one(Kind::Unknown);
    }
    Lexeme {
        kind: Kind::Gap,
        more: 1 + line_length(&text[2..]),
    }
}

fn one(kind: Kind) -> Lexeme
    ensures { result ≡ spec.one kind }
{
    Lexeme { kind, more: 0 }
}

// `<=` or `<` at the front of a text.
fn less(text: &[u8]) -> Lexeme
    ensures kind { result ≡ spec.less_lexeme text.now }
    ensures inside { 0 < length text.now → result.more < length text.now }
{
    if byte_at(text, 1) != b'=' {
        return one(Kind::Less);
    }
    Lexeme {
        kind: Kind::LessEqual,
        more: 1,
    }
}

// `==` or `=` at the front of a text.
fn equals(text: &[u8]) -> Lexeme
    ensures kind { result ≡ spec.equals_lexeme text.now }
    ensures inside { 0 < length text.now → result.more < length text.now }
{
    if byte_at(text, 1) != b'=' {
        return one(Kind::Becomes);
    }
    Lexeme {
        kind: Kind::Equal,
        more: 1,
    }
}

// The other tokens, of one byte.
fn symbol_kind(byte: u8) -> Kind
    ensures { result ≡ spec.symbol_kind byte }
{
    match byte {
        b'(' => Kind::OpenParen,
        b')' => Kind::CloseParen,
        b'[' => Kind::OpenBracket,
        b']' => Kind::CloseBracket,
        b'{' => Kind::OpenBrace,
        b'}' => Kind::CloseBrace,
        b',' => Kind::Comma,
        b';' => Kind::Semicolon,
        b':' => Kind::Colon,
        b'?' => Kind::Question,
        b'@' => Kind::At,
        b'~' => Kind::Tilde,
        b'&' => Kind::And,
        b'|' => Kind::Or,
        b'^' => Kind::Xor,
        b'+' => Kind::Plus,
        b'-' => Kind::Minus,
        _ => Kind::Unknown,
    }
}

/// The longest token or gap at the front of a text that isn't empty.
#[tactic(auto, unfolding(crate::specs::Lexemes::first_lexeme))]
pub fn first_lexeme(text: &[u8]) -> Lexeme
    ensures kind { result ≡ spec.first_lexeme text.now }
    ensures inside { 0 < length text.now → result.more < length text.now }
{
    let first = byte_at(text, 0);
    if is_letter(first) {
        return word(text);
    }
    if is_digit(first) {
        return numeral(text);
    }
    if is_space(first) {
        return one(Kind::Gap);
    }
    match first {
        b'/' => comment(text),
        b'<' => less(text),
        b'=' => equals(text),
        _ => one(symbol_kind(first)),
    }
}
