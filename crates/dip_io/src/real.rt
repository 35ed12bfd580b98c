ghost use Rattle.std.specs.Prelude.{◌≡◌, ◌<◌, ◌≤◌, ◌+◌, drop, length, IfOk, OnOk, OnErr};
ghost use Rattle.std.specs.Io.{StartsWith};
ghost use Rattle.std.specs.Io.KnownBytes.{Consumes, IsAtEnd};
ghost use Rattle.dip_io.specs.Counting.{raised};
ghost use Rattle.dip_io.specs.Outside.{Appends, Loads, TakesFirst, untold_files, untold_out};

use crate::{Failed, Files, LoadFault, Out};
use std::fs::{self, File};
use std::io::{self, Read, Write};
use std::marker::Model;
use std::rt;

// How many bytes of a file are read at once.
const CHUNK: usize = 65_536;

/// The files of the system, of which nothing is told. Contracts see how many of their calls have failed.
#[derive(Drop)]
pub struct RealFiles<R: rt::Files + Drop> {
    rt: R,
    faults: u64,
}

impl<R: rt::Files + Drop> Model for RealFiles<R> {
    ghost use Rattle.std.specs.Prelude.{ℕ};

    ghost Value = { ℕ };

    ghost view = { λ f. f.faults };
}

impl<R: rt::Files + Drop> RealFiles<R> {
    /// The files that the runtime reaches, with no call that has failed.
    pub fn new(rt: R) -> RealFiles<R>
        ensures { result ≡ 0 }
    {
        RealFiles { rt, faults: 0 }
    }
}

impl<R: rt::Files + Drop> Files for RealFiles<R> {
    ghost seen = { untold_files };

    fn load(&mut self, name: &str, max: usize, into: &mut Vec<u8>) -> Result<(), LoadFault>
        ensures ok { OnOk result (Loads max name.now (untold_files self.old) into.old.items into.new.items) }
        ensures refused { OnErr result (into.new.items ≡ into.old.items) }
        ensures failed { OnErr result (self.new ≡ raised self.old) }
        ensures passed { OnOk result (self.new ≡ self.old) }
        ensures later { self.old ≤ self.new }
    {
        let result = load_file(&self.rt, name, max, into);
        if result.is_err() {
            self.faults = self.faults.saturating_add(1);
        }
        result
    }

    fn save(&mut self, name: &str, bytes: &[u8]) -> Result<(), Failed>
        ensures failed { OnErr result (self.new ≡ raised self.old) }
        ensures passed { OnOk result (self.new ≡ self.old) }
        ensures later { self.old ≤ self.new }
    {
        if fs::write(&self.rt, name, bytes).is_err() {
            self.faults = self.faults.saturating_add(1);
            return Err(Failed);
        }
        Ok(())
    }
}

// Appends the first `max` bytes of the named file, or all where it is shorter. After a refusal `into` is as
// before.
fn load_file<R: rt::Files>(
    rt: &R,
    name: &str,
    max: usize,
    into: &mut Vec<u8>,
) -> Result<(), LoadFault>
    ensures ok { OnOk result (Appends (λ bytes. length bytes ≤ max) into.old.items into.new.items) }
    ensures refused { OnErr result (into.new.items ≡ into.old.items) }
{
    match File::open(rt, name) {
        Ok(mut file) => read_first(&mut file, max, into),
        Err(_) => Err(LoadFault::Failed),
    }
}

/// Appends the first `max` bytes that a source gives, or all where it gives fewer.
///
/// `Failed` comes where a read has failed. After a refusal `into` is as before.
pub fn read_first<S: Read>(source: &mut S, max: usize, into: &mut Vec<u8>) -> Result<(), LoadFault>
    ensures ok { OnOk result (TakesFirst max (S.remaining source.old) into.old.items into.new.items) }
    ensures refused { OnErr result (into.new.items ≡ into.old.items) }
{
    let before = into.len();
    let result = read_on(source, max, into);
    if result.is_err() {
        into.truncate(before);
    }
    result
}

// Appends what a source gives, up to `max` bytes. After a refusal some of it may stand there.
fn read_on<S: Read>(source: &mut S, max: usize, into: &mut Vec<u8>) -> Result<(), LoadFault>
    ensures ok { OnOk result (TakesFirst max (S.remaining source.old) into.old.items into.new.items) }
    ensures kept { StartsWith into.new.items into.old.items }
{
    let mut left = max;
    while left > 0 {
        let count = read_chunk(source, left, into)?;
        if count == 0 {
            return Ok(());
        }
        left -= count;
    }
    Ok(())
}

// Appends the next bytes of a source, and answers how many; 0 only at its end.
fn read_chunk<S: Read>(source: &mut S, most: usize, into: &mut Vec<u8>) -> Result<usize, LoadFault>
    requires { 0 < most }
    ensures within { IfOk result (λ count. count ≤ most) }
    ensures kept { StartsWith into.new.items into.old.items }
    ensures refused { OnErr result (into.new.items ≡ into.old.items) }
    ensures count { IfOk result (λ count. length into.new.items ≡ length into.old.items + count) }
    ensures bytes { OnOk result (Consumes (S.remaining source.old) (S.remaining source.new)
        (drop (length into.old.items) into.new.items)) }
    ensures end { IfOk result (λ count. count ≡ 0 → IsAtEnd (S.remaining source.new)) }
{
    let mut buffer = [0u8; CHUNK];
    let chunk = &mut buffer[..most.min(CHUNK)];
    let Ok(count) = source.read(chunk) else {
        return Err(LoadFault::Failed);
    };
    if into.extend_from_slice(&chunk[..count]).is_err() {
        return Err(LoadFault::Memory);
    }
    Ok(count)
}

/// Standard output, of which nothing is told. Contracts see how many of its puts have failed.
#[derive(Drop)]
pub struct RealOut<R: Print + Drop> {
    rt: R,
    faults: u64,
}

impl<R: Print + Drop> Model for RealOut<R> {
    ghost use Rattle.std.specs.Prelude.{ℕ};

    ghost Value = { ℕ };

    ghost view = { λ o. o.faults };
}

impl<R: Print + Drop> RealOut<R> {
    /// The standard output that the runtime reaches, with no put that has failed.
    pub fn new(rt: R) -> RealOut<R>
        ensures { result ≡ 0 }
    {
        RealOut { rt, faults: 0 }
    }
}

impl<R: Print + Drop> Out for RealOut<R> {
    ghost seen = { untold_out };

    fn put(&mut self, bytes: &[u8]) -> Result<usize, Failed>
        ensures within { IfOk result (λ count. count ≤ length bytes.now) }
        ensures some { IfOk result (λ count. 0 < length bytes.now → 0 < count) }
        ensures failed { OnErr result (self.new ≡ raised self.old) }
        ensures passed { OnOk result (self.new ≡ self.old) }
        ensures later { self.old ≤ self.new }
    {
        if bytes.is_empty() {
            return Ok(0);
        }
        match io::writer(&self.rt).write(bytes) {
            Ok(count) if count > 0 => Ok(count),
            _ => {
                self.faults = self.faults.saturating_add(1);
                Err(Failed)
            }
        }
    }
}
