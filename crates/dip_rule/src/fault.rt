use thiserror::Error;

/// Why a rule gave no port.
#[derive(Clone, Copy, Debug, PartialEq, Eq, Error)]
pub enum RuleFault {
    /// The rule refuses, with a number of its own.
    #[error("refused with {0}")]
    Refused(u16),
    #[error("out of memory")]
    Memory,
}

impl From<dip_lists::Memory> for RuleFault {
    ghost use Rattle.std.specs.Prelude.{◌≡◌};
    ghost use Rattle.dip_rule.specs.declared.fault.RuleFault.TheVariants as fault;

    ghost from_gives = { λ _ e. e ≡ fault.Memory };

    fn from(_: dip_lists::Memory) -> RuleFault {
        RuleFault::Memory
    }
}
