//! Files and an output, by what is told of them and how often their calls have failed: the traits, and
//! implementations in memory and on the system.
#![tactic(auto)]

mod calls;
mod files;
mod mem_files;
mod mem_out;
mod out;
mod put;
mod real;

pub use files::{Failed, Files, LoadFault};
pub use mem_files::MemFiles;
pub use mem_out::MemOut;
pub use out::Out;
pub use put::put_all;
pub use real::{RealFiles, RealOut, read_first};
