ghost use Rattle.std.specs.Prelude.{◌≡◌, [], ◌∷◌, ◌++◌, decimal, OnOk};
ghost use Rattle.dip_text.specs.Numbers.{hexadecimal};

use dip_lists::{Bytes, Items, Memory};
use itoa::Buffer;
use std::alloc::Global;
use std::marker::Model;

/// A text that grows at its end, which contracts see as its bytes.
#[derive(Drop)]
pub struct Text {
    bytes: Vec<u8>,
    alloc: Global,
}

impl Model for Text {
    ghost use Rattle.std.specs.Prelude.{List, ℕ};

    ghost Value = { List ℕ };

    ghost view = { λ t. t.bytes.items };
}

impl Text {
    /// The empty text, which takes its memory from `alloc` as it grows.
    pub fn new(alloc: Global) -> Text
        ensures { result ≡ [] }
    {
        Text {
            bytes: Vec::new(alloc),
            alloc,
        }
    }

    /// Puts a piece at the end.
    pub fn add(&mut self, piece: &[u8]) -> Result<(), Memory>
        ensures { OnOk result (self.new ≡ self.old ++ piece.now) }
    {
        self.bytes.extend_from_slice(piece)?;
        Ok(())
    }

    /// Puts a byte at the end.
    pub fn add_byte(&mut self, byte: u8) -> Result<(), Memory>
        ensures { OnOk result (self.new ≡ self.old ++ byte ∷ []) }
    {
        self.bytes.push(byte)?;
        Ok(())
    }

    /// Puts a decimal number at the end.
    pub fn add_number(&mut self, number: u64) -> Result<(), Memory>
        ensures { OnOk result (self.new ≡ self.old ++ decimal number) }
    {
        let mut buffer = Buffer::new();
        self.add(buffer.format(number).as_bytes())
    }

    /// Puts a number at the end, in hexadecimal digits.
    pub fn add_hexadecimal(&mut self, number: u64) -> Result<(), Memory>
        ensures { OnOk result (self.new ≡ self.old ++ hexadecimal number) }
    {
        let digits = format!(in self.alloc; "{number:x}")?;
        self.add(digits.as_bytes())
    }

    /// The bytes of the text.
    pub fn as_slice(&self) -> &[u8]
        ensures { result.now ≡ self.now }
    {
        self.bytes.as_slice()
    }

    /// The bytes of the text, taken out of it.
    pub fn into_bytes(self) -> Bytes
        ensures { result ≡ self }
    {
        let Text { bytes, .. } = self;
        Items::from_vec(bytes)
    }
}
