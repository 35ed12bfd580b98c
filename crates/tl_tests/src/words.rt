use dip_lists::Memory;
use std::alloc::Global;
use std::fmt::Write;
use tl_params::Op;

// The value of a hexadecimal digit, if it is one.
fn digit_of(letter: u8) -> Option<u64> {
    match letter {
        b'0'..=b'9' => Some(u64::from(letter - b'0')),
        b'a'..=b'f' => Some(u64::from(letter - b'a') + 10),
        _ => None,
    }
}

// The number that hexadecimal digits spell, if they spell one of 64 bits.
fn spelled(digits: &str) -> Option<u64> {
    let mut number = 0u64;
    for letter in digits.as_bytes() {
        number = number.checked_mul(16)?.checked_add(digit_of(*letter)?)?;
    }
    Some(number)
}

/// The number that hexadecimal digits spell; 0 where they spell none of 64 bits.
pub fn number(digits: &str) -> u64 {
    spelled(digits).unwrap_or(0)
}

/// The hexadecimal numbers that words are.
pub fn numbers(alloc: Global, words: &str) -> Result<Vec<u64>, Memory> {
    let mut list = Vec::new(alloc);
    for word in words.split(' ') {
        list.push(number(word))?;
    }
    Ok(list)
}

/// The operation that a word names; a hint where it names no other.
pub fn op_of(word: &str) -> Op {
    match word {
        "get" => Op::Get,
        "put" => Op::PutFull,
        "part" => Op::PutPartial,
        "sum" => Op::Arithmetic,
        "logic" => Op::Logical,
        _ => Op::Intent,
    }
}

/// Adds a word to an answer.
pub fn say(text: &mut String, word: &str) -> Result<(), Memory> {
    Ok(write!(text, " {word}")?)
}

/// Adds a hexadecimal number to an answer.
pub fn say_number(text: &mut String, number: u64) -> Result<(), Memory> {
    Ok(write!(text, " {number:x}")?)
}

/// Adds yes or no to an answer.
pub fn say_whether(text: &mut String, holds: bool) -> Result<(), Memory> {
    say(text, if holds { "yes" } else { "no" })
}
