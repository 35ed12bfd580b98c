use crate::answer::{answer_to, show, show_netlist};
use crate::changes::{bytes, change, comments, fronts};
use crate::made::{large, ports};
use std::alloc::{AllocError, Global};
use std::io;

/// What was read of the input: the text that the next lines ask about, and whether lines of it still come.
#[derive(Drop)]
pub struct Script {
    text: Vec<u8>,
    open: bool,
}

// The first word of a line, and what stands behind the space after it.
fn cut(line: &str) -> (&str, &str) {
    line.split_once(' ').unwrap_or((line, ""))
}

// The number that a word is; 0 where it is none.
fn number(word: &str) -> usize {
    word.parse().unwrap_or(0)
}

// The byte that a letter behind a backslash stands for.
fn escaped(letter: u8) -> u8 {
    match letter {
        b't' => b'\t',
        b'r' => b'\r',
        b'n' => b'\n',
        other => other,
    }
}

// Puts the bytes of a word into a list, with those that are written with a backslash.
fn put_bytes(word: &[u8], into: &mut Vec<u8>) -> Result<(), AllocError> {
    let mut after_backslash = false;
    for byte in word {
        if after_backslash {
            into.push(escaped(*byte))?;
            after_backslash = false;
        } else if *byte == b'\\' {
            after_backslash = true;
        } else {
            into.push(*byte)?;
        }
    }
    Ok(())
}

// So many bytes, all the same.
fn put_many(count: usize, byte: u8, into: &mut Vec<u8>) -> Result<(), AllocError> {
    for _ in 0..count {
        into.push(byte)?;
    }
    Ok(())
}

impl Script {
    /// Nothing was read.
    pub fn new(alloc: Global) -> Script {
        Script {
            text: Vec::new(alloc),
            open: false,
        }
    }

    // A change of the text: `START LENGTH WITH`.
    fn change(&self, rt: &HostRuntime, words: &str) -> io::Result<()> {
        let (start, rest) = cut(words);
        let (length, with) = cut(rest);
        let mut bytes = Vec::new(rt.alloc());
        put_bytes(with.as_bytes(), &mut bytes)?;
        change(
            rt,
            self.text.as_slice(),
            number(start),
            number(length),
            bytes.as_slice(),
        )
    }

    // A change by many digits 3: `START LENGTH COUNT`.
    fn change_many(&self, rt: &HostRuntime, words: &str) -> io::Result<()> {
        let (start, rest) = cut(words);
        let (length, count) = cut(rest);
        let mut bytes = Vec::new(rt.alloc());
        put_many(number(count), b'3', &mut bytes)?;
        change(
            rt,
            self.text.as_slice(),
            number(start),
            number(length),
            bytes.as_slice(),
        )
    }

    // A text with many ports: `COUNT LAST FRONT`.
    fn ports(&self, rt: &HostRuntime, words: &str) -> io::Result<()> {
        let (count, rest) = cut(words);
        let (last, front) = cut(rest);
        ports(rt, number(count), front, last)
    }

    // A line that asks something about the text, or about a made one.
    fn ask(&self, rt: &HostRuntime, word: &str, rest: &str) -> io::Result<()> {
        let text = self.text.as_slice();
        match word {
            "at" => self.change(rt, rest),
            "many" => self.change_many(rt, rest),
            "netlist" => show_netlist(rt, text),
            "fronts" => fronts(rt, text),
            "bytes" => bytes(rt, text, number(rest)),
            "comments" => comments(rt, text, number(rest)),
            "large" => large(rt, number(rest) as u64),
            "ports" => self.ports(rt, rest),
            "" => Ok(()),
            _ => println!(rt; "{word} {rest}"),
        }
    }

    // One more line of the text; the line `.` ends it, and prints what reading answers to it.
    fn take_text(&mut self, rt: &HostRuntime, line: &str) -> io::Result<()> {
        if line == "." {
            self.open = false;
            return show(rt, "text", answer_to(rt.alloc(), self.text.as_slice()));
        }
        self.text.extend_from_slice(line.as_bytes())?;
        self.text.push(b'\n')?;
        Ok(())
    }

    /// Takes a line of the input. `text` begins a text, which the line `.` ends. Then `at START LENGTH
    /// WITH` asks about the text with other bytes in the place of so many of its own, `many` about one with
    /// so many digits there, `netlist` what it says, `fronts` about each front of it, `bytes` and
    /// `comments` about it with each byte put in at a place, `large` about the text of a netlist of so
    /// many cells, and `ports` about one of many ports. Any other line is printed.
    pub fn take(&mut self, rt: &HostRuntime, line: &str) -> io::Result<()> {
        if self.open {
            return self.take_text(rt, line);
        }
        let (word, rest) = cut(line);
        if word == "text" {
            self.text.clear();
            self.open = true;
            return Ok(());
        }
        self.ask(rt, word, rest)
    }
}
