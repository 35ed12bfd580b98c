ghost use Rattle.std.specs.Prelude.{◌≡◌, ◌≤◌, length, take};
ghost use Rattle.soc_report.specs.Lines.{line_of, code_of, numbers_line, bad_text_line};

use crate::line::{add, add_number};

/// How a run ended.
#[derive(Clone, Copy, Debug, PartialEq, Eq)]
pub enum Status {
    /// All output was written.
    Done,
    /// A check of the design fails at this subject.
    Refused { check: u16, subject: u64 },
    /// The words have no stated form.
    Usage,
    /// A file wasn't loaded.
    ReadFailed,
    /// A file or the output didn't take all of a text.
    WriteFailed,
    /// A rule of the stimulus fails at this entry.
    BadStimulus { rule: u16, entry: u64 },
    /// Want of memory; nothing was printed.
    Memory,
    /// A run needs more devices than it was given.
    NoDevice { needed: u64, given: u64 },
    /// A text spells no netlist; it is refused at the byte with this number, from 0.
    BadText { place: u64 },
}

impl Status {
    /// The exit status of the program.
    pub fn code(&self) -> u8
        ensures { result ≡ code_of self.now }
    {
        match self {
            Status::Done => 0,
            Status::Refused { .. } => 1,
            Status::Usage => 2,
            Status::ReadFailed => 3,
            Status::WriteFailed => 4,
            Status::BadStimulus { .. } => 5,
            Status::Memory => 6,
            Status::NoDevice { .. } => 7,
            Status::BadText { .. } => 8,
        }
    }
}

// Writes a word and two numbers to the front of `into`, and answers where the line ends.
fn numbers_text(word: &[u8], first: u64, second: u64, into: &mut [u8; 256]) -> usize
    requires { length word.now ≤ 200 }
    ensures within { result ≤ 256 }
    ensures text { take result into.new ≡ numbers_line word.now first second }
{
    let end = add(into, 0, word);
    let end = add_number(into, end, first);
    let end = add(into, end, b" ");
    let end = add_number(into, end, second);
    add(into, end, b"\n")
}

// Writes the line of a text that is refused to the front of `into`, and answers where it ends.
fn bad_text_text(place: u64, into: &mut [u8; 256]) -> usize
    ensures within { result ≤ 256 }
    ensures text { take result into.new ≡ bad_text_line place }
{
    let end = add(into, 0, b"bad text ");
    let end = add_number(into, end, place);
    add(into, end, b"\n")
}

/// Writes the line of a status to the front of `into`, and answers how many bytes it has: 0 where nothing is
/// printed. It takes no memory.
pub fn fault_text(status: &Status, into: &mut [u8; 256]) -> usize
    ensures within { result ≤ 256 }
    ensures text { take result into.new ≡ line_of status.now }
{
    match status {
        Status::Refused { check, subject } => {
            numbers_text(b"refused ", *check as u64, *subject, into)
        }
        Status::BadStimulus { rule, entry } => {
            numbers_text(b"bad stimulus ", *rule as u64, *entry, into)
        }
        Status::NoDevice { needed, given } => numbers_text(b"no device ", *needed, *given, into),
        Status::BadText { place } => bad_text_text(*place, into),
        Status::Usage => add(into, 0, b"usage: soc map|verilog|sim|read\n"),
        Status::ReadFailed => add(into, 0, b"read failed\n"),
        Status::Done | Status::WriteFailed | Status::Memory => 0,
    }
}
