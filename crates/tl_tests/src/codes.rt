use crate::words::{number, numbers, say, say_number};
use dip_lists::{Items, Memory};
use std::alloc::Global;
use std::fmt::Write;
use tl_params::{
    Ack, Args, Op, ack_of_code, code_of_ack, code_of_op, fragment_arguments, op_of_code,
    shrink_argument,
};

/// The codes of PutFull, PutPartial, Arithmetic, Logical, Get and Intent, and of Ack, AckData and HintAck.
pub fn codes(text: &mut String) -> Result<(), Memory> {
    say_number(text, code_of_op(Op::PutFull))?;
    say_number(text, code_of_op(Op::PutPartial))?;
    say_number(text, code_of_op(Op::Arithmetic))?;
    say_number(text, code_of_op(Op::Logical))?;
    say_number(text, code_of_op(Op::Get))?;
    say_number(text, code_of_op(Op::Intent))?;
    say_number(text, code_of_ack(Ack::Ack))?;
    say_number(text, code_of_ack(Ack::AckData))?;
    say_number(text, code_of_ack(Ack::HintAck))
}

// The word of an operation.
fn op_word(op: Op) -> &'static str {
    match op {
        Op::PutFull => "put",
        Op::PutPartial => "part",
        Op::Arithmetic => "sum",
        Op::Logical => "logic",
        Op::Get => "get",
        Op::Intent => "hint",
    }
}

/// The operation with each code.
pub fn ops(rest: &str, text: &mut String) -> Result<(), Memory> {
    for word in rest.split(' ') {
        match op_of_code(number(word)) {
            Some(op) => say(text, op_word(op))?,
            None => say(text, "-")?,
        }
    }
    Ok(())
}

// The word of an answer.
fn ack_word(ack: Ack) -> &'static str {
    match ack {
        Ack::Ack => "ack",
        Ack::AckData => "data",
        Ack::HintAck => "hint",
    }
}

/// The answer with each code.
pub fn acks(rest: &str, text: &mut String) -> Result<(), Memory> {
    for word in rest.split(' ') {
        match ack_of_code(number(word)) {
            Some(ack) => say(text, ack_word(ack))?,
            None => say(text, "-")?,
        }
    }
    Ok(())
}

// The arguments that words are.
fn args_of(alloc: Global, rest: &str) -> Result<Args, Memory> {
    let mut args = Items::new(alloc);
    for word in numbers(alloc, rest)?.iter() {
        args.push((*word).min(5000) as u32)?;
    }
    Ok(args)
}

/// The bytes of a piece and of the largest transfer that a fragmenter's arguments state.
pub fn fragments(alloc: Global, rest: &str, text: &mut String) -> Result<(), Memory> {
    match fragment_arguments(&args_of(alloc, rest)?) {
        Some(fragments) => Ok(write!(text, " {} {}", fragments.piece, fragments.largest)?),
        None => say(text, "-"),
    }
}

/// The number of ids that a shrinker's argument states.
pub fn shrinks(alloc: Global, rest: &str, text: &mut String) -> Result<(), Memory> {
    match shrink_argument(&args_of(alloc, rest)?) {
        Some(ids) => Ok(write!(text, " {ids}")?),
        None => say(text, "-"),
    }
}
