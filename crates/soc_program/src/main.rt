//! The program `soc`: the top call over real files and standard output.
#![tactic(auto)]

use dip_io::{RealFiles, RealOut};
use dip_lists::Memory;
use soc_report::Status;
use soc_top::{MOST_DEVICES, boxed_cells, soc_by_standard_rules};
use std::env;
use std::io::ErrorKind;
use std::process::ExitCode;

// The words of the run without the program's name, none where one of them isn't text.
fn words_of(rt: &HostRuntime) -> Result<Vec<String>, Memory> {
    let mut words = Vec::new(rt.alloc());
    match env::args(rt) {
        Ok(all) => {
            for word in all.skip(1) {
                words.push(word)?;
            }
            Ok(words)
        }
        Err(error) if error.kind() == ErrorKind::OutOfMemory => Err(Memory),
        Err(_) => Ok(words),
    }
}

// The run on real files and standard output.
fn run(rt: HostRuntime) -> Result<Status, Memory> {
    let words = words_of(&rt)?;
    let copy: Result<HostRuntime, _> = rt.clone();
    let Ok(copy) = copy else {
        return Err(Memory);
    };
    let alloc = rt.alloc();
    let devices = boxed_cells!(alloc, MOST_DEVICES);
    let mut files = RealFiles::new(copy);
    let mut out = RealOut::new(rt);
    soc_by_standard_rules(alloc, words.as_slice(), &mut files, &mut out, devices)
}

fn main(rt: HostRuntime) -> ExitCode {
    let status = match run(rt) {
        Ok(status) => status,
        Err(Memory) => Status::Memory,
    };
    ExitCode::from(status.code())
}
