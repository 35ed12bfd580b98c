use dip_graph::Fault;
use dip_lists::Memory;
use thiserror::Error;

/// Why there is no stimulus.
#[derive(Clone, Copy, Debug, PartialEq, Eq, Error)]
pub enum StimFault {
    /// The first rule that fails, and the entry at which it does.
    #[error("rule {rule} fails at entry {entry}")]
    Line { rule: u16, entry: u64 },
    #[error("out of memory")]
    Memory,
}

impl From<Memory> for StimFault {
    ghost use Rattle.std.specs.Prelude.{◌≡◌};
    ghost use Rattle.soc_stimulus.specs.declared.fault.StimFault.TheVariants as fault;

    ghost from_gives = { λ _ e. e ≡ fault.Memory };

    fn from(_: Memory) -> StimFault {
        StimFault::Memory
    }
}

impl From<Fault> for StimFault {
    ghost use Rattle.std.specs.Prelude.{◌≡◌};
    ghost use Rattle.soc_stimulus.specs.Lines.{stimulus_line};

    ghost from_gives = { λ fault e. e ≡ stimulus_line fault };

    fn from(fault: Fault) -> StimFault {
        match fault {
            Fault::Check { number, subject } => StimFault::Line {
                rule: number,
                entry: subject,
            },
            Fault::Memory => StimFault::Memory,
        }
    }
}
