use crate::answer::{Answer, answer_to, show};
use std::alloc::AllocError;
use std::io;

// Puts the bytes into a list that stand in a text with other bytes in the place of some of its own.
fn put_changed(
    text: &[u8],
    start: usize,
    end: usize,
    with: &[u8],
    into: &mut Vec<u8>,
) -> Result<(), AllocError> {
    into.clear();
    into.extend_from_slice(text.get(..start).unwrap_or(b""))?;
    into.extend_from_slice(with)?;
    into.extend_from_slice(text.get(end..).unwrap_or(b""))
}

/// Prints what reading answers to a text with other bytes in the place of so many of its own.
pub fn change(
    rt: &HostRuntime,
    text: &[u8],
    start: usize,
    length: usize,
    with: &[u8],
) -> io::Result<()> {
    let mut changed = Vec::new(rt.alloc());
    put_changed(
        text,
        start,
        start.saturating_add(length),
        with,
        &mut changed,
    )?;
    show(rt, "changed", answer_to(rt.alloc(), changed.as_slice()))
}

/// Prints where each front of a text is refused, from the empty one on; `-` where it isn't.
pub fn fronts(rt: &HostRuntime, text: &[u8]) -> io::Result<()> {
    for end in 0..text.len() {
        match answer_to(rt.alloc(), text.get(..end).unwrap_or(b"")) {
            Answer::Refused(place) => println!(rt; "{end} {place}")?,
            _ => println!(rt; "{end} -")?,
        }
    }
    Ok(())
}

// What reading answers to a text with these bytes put in at a place.
fn with_inserted(
    rt: &HostRuntime,
    text: &[u8],
    place: usize,
    with: &[u8],
) -> Result<Answer, AllocError> {
    let mut changed = Vec::new(rt.alloc());
    put_changed(text, place, place, with, &mut changed)?;
    Ok(answer_to(rt.alloc(), changed.as_slice()))
}

// Prints the answer to a byte put in, where it isn't a refusal at its own place.
fn show_byte(rt: &HostRuntime, byte: u8, place: usize, answer: Answer) -> io::Result<()> {
    match answer {
        Answer::Refused(found) => {
            if found == place {
                return Ok(());
            }
            println!(rt; "byte {byte} at {place}: refused at {found}")
        }
        Answer::Memory => println!(rt; "byte {byte} at {place}: out of memory"),
        Answer::Printed | Answer::Spelled => println!(rt; "byte {byte} at {place}: read"),
    }
}

/// Puts each byte in at a place, with a space behind it: prints which are read, and which are refused
/// elsewhere.
pub fn bytes(rt: &HostRuntime, text: &[u8], place: usize) -> io::Result<()> {
    for byte in 0..=255u8 {
        let answer = with_inserted(rt, text, place, &[byte, b' '])?;
        show_byte(rt, byte, place, answer)?;
    }
    Ok(())
}

/// Puts a comment of each byte in at a place, and prints how many of them are read.
pub fn comments(rt: &HostRuntime, text: &[u8], place: usize) -> io::Result<()> {
    let mut read = 0u32;
    for byte in 0..=255u8 {
        match with_inserted(rt, text, place, &[b'/', b'/', byte, b'\n'])? {
            Answer::Spelled => read = read.saturating_add(1),
            _ => println!(rt; "comment of byte {byte} at {place}: not read")?,
        }
    }
    println!(rt; "comments at {place}: {read} read")
}
