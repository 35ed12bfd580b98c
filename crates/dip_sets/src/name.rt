ghost use Rattle.std.specs.Prelude.{◌≡◌, ◌↔◌, Some, None, if◌then◌else◌, IsTrue, IfOk};
ghost use Rattle.std.specs.List.{list_all};
ghost use Rattle.dip_sets.specs.Names as names;

use dip_lists::{Duplicate, Memory, Same};
use std::alloc::Global;
use std::marker::Model;

/// A name: 1 to 64 bytes of `a` to `z`, `0` to `9` and `_`, the first a letter.
///
/// Each is an identifier of IEEE 1364-2005 (3.7) too, but for the reserved words.
#[derive(Debug, Drop)]
pub struct Name {
    text: String,
}

impl Model for Name {
    ghost use Rattle.std.specs.Prelude.{List, ℕ, IsTrue, string_bytes};
    ghost use Rattle.dip_sets.specs.Names.{is_name};

    ghost Value = { List ℕ };

    ghost view = { λ n. string_bytes n.text };

    ghost invariant = { λ n. IsTrue (is_name (string_bytes n.text)) };
}

// Whether a byte may stand in a name.
fn is_name_byte(byte: u8) -> bool
    ensures { result ≡ names.is_name_byte byte }
{
    byte.is_ascii_lowercase() || byte.is_ascii_digit() || byte == b'_'
}

// Whether the first byte is a letter.
fn begins_with_letter(text: &[u8]) -> bool
    ensures { result ≡ names.begins_with_letter text.now }
{
    match text.first() {
        None => false,
        Some(first) => first.is_ascii_lowercase(),
    }
}

// Whether each byte may stand in a name.
fn has_name_bytes(text: &[u8]) -> bool
    ensures { result ≡ list_all names.is_name_byte text.now }
{
    text.iter().all(|byte| is_name_byte(*byte))
}

/// Whether a text has the form of a name.
pub fn is_name(text: &str) -> bool
    ensures { result ≡ names.is_name text.now }
{
    let bytes = text.as_bytes();
    begins_with_letter(bytes) && bytes.len() <= 64 && has_name_bytes(bytes)
}

impl Name {
    /// The name with this text; `None` exactly where the text has another form.
    pub fn new(alloc: Global, text: &str) -> Result<Option<Name>, Memory>
        ensures { IfOk result (λ name. name ≡ (if names.is_name text.now then Some text.now else None)) }
    {
        if !is_name(text) {
            return Ok(None);
        }
        let text = String::from_str(alloc, text)?;
        Ok(Some(Name { text }))
    }

    /// An equal name in memory of its own.
    pub fn copy(&self, alloc: Global) -> Result<Name, Memory>
        ensures { IfOk result (λ name. name ≡ self.now) }
    {
        let text = String::from_str(alloc, self.text.as_str())?;
        Ok(Name { text })
    }

    /// Whether the two names have the same bytes.
    pub fn same(&self, other: &Name) -> bool
        ensures { IsTrue result ↔ (self.now ≡ other.now) }
    {
        self.text.as_bytes() == other.text.as_bytes()
    }

    /// The bytes of the name. Callers learn here that they have its form.
    pub fn bytes(&self) -> &[u8]
        ensures bytes { result.now ≡ self.now }
        ensures form { IsTrue (names.is_name self.now) }
    {
        self.text.as_bytes()
    }

    /// The text of the name. Callers learn here that it has its form.
    pub fn as_str(&self) -> &str
        ensures text { result.now ≡ self.now }
        ensures form { IsTrue (names.is_name self.now) }
    {
        self.text.as_str()
    }
}

impl Same for Name {
    fn same(&self, other: &Name) -> bool {
        Name::same(self, other)
    }
}

impl Duplicate for Name {
    fn duplicate(&self, alloc: Global) -> Result<Name, Memory> {
        self.copy(alloc)
    }
}
