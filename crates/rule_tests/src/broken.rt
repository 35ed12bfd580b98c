use dip_lists::Memory;
use std::alloc::AllocError;
use std::io;

/// Why a run broke off.
#[derive(Clone, Copy, Debug, PartialEq, Eq)]
pub enum Broken {
    Memory,
    Out,
}

impl From<Memory> for Broken {
    fn from(_: Memory) -> Broken {
        Broken::Memory
    }
}

impl From<AllocError> for Broken {
    fn from(_: AllocError) -> Broken {
        Broken::Memory
    }
}

impl From<io::Error> for Broken {
    fn from(_: io::Error) -> Broken {
        Broken::Out
    }
}
