use dip_lists::Memory;
use std::alloc::Global;
use std::fmt::Write;

// The value of a hexadecimal digit, if it is one.
fn digit_of(letter: u8) -> Option<u64> {
    match letter {
        b'0'..=b'9' => Some(u64::from(letter - b'0')),
        b'a'..=b'f' => Some(u64::from(letter - b'a') + 10),
        _ => None,
    }
}

// The number that hexadecimal digits spell, if they spell one of 64 bits.
fn spelled(digits: &str) -> Option<u64> {
    let mut number = 0u64;
    for letter in digits.as_bytes() {
        number = number.checked_mul(16)?.checked_add(digit_of(*letter)?)?;
    }
    Some(number)
}

/// The number that a word is: decimal, or hexadecimal behind `0x`. The greatest one of 64 bits where it
/// is none.
pub fn number(word: &str) -> u64 {
    let number = match word.strip_prefix("0x") {
        Some(digits) => spelled(digits),
        None => word.parse::<u64>().ok(),
    };
    number.unwrap_or(u64::MAX)
}

// How often a word stands for its number, and the number: `3*7` is 7 7 7.
fn repeated(word: &str) -> (u64, &str) {
    match word.split_once('*') {
        Some((times, word)) => (number(times), word),
        None => (1, word),
    }
}

/// The numbers that words are.
pub fn numbers(alloc: Global, words: &str) -> Result<Vec<u64>, Memory> {
    let mut list = Vec::new(alloc);
    for word in words.split(' ') {
        let (times, word) = repeated(word);
        for _ in 0..times {
            list.push(number(word))?;
        }
    }
    Ok(list)
}

/// Adds a word to an answer.
pub fn say(text: &mut String, word: &str) -> Result<(), Memory> {
    Ok(write!(text, " {word}")?)
}

/// Adds a number to an answer.
pub fn say_number(text: &mut String, number: u64) -> Result<(), Memory> {
    Ok(write!(text, " {number}")?)
}

/// Adds a number to an answer, or `-` where there is none.
pub fn say_some(text: &mut String, number: Option<u64>) -> Result<(), Memory> {
    match number {
        Some(number) => say_number(text, number),
        None => say(text, "-"),
    }
}

/// Adds yes or no to an answer.
pub fn say_whether(text: &mut String, holds: bool) -> Result<(), Memory> {
    say(text, if holds { "yes" } else { "no" })
}
