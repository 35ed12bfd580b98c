ghost use Rattle.std.specs.Prelude.{◌≡◌};
ghost use Rattle.net_ports.specs.Fields as spec;

/// A field on the wires of a port, with its channel.
#[derive(Debug, Clone, Copy, PartialEq, Eq)]
pub enum Field {
    AReady,
    AValid,
    AOpcode,
    AParam,
    ASize,
    ASource,
    AAddress,
    AMask,
    AData,
    DReady,
    DValid,
    DOpcode,
    DSize,
    DSource,
    DDenied,
    DData,
}

/// The fields of a beat of channel A, in the order of the ports.
pub const A_BEAT: [Field; 7] = [
    Field::AOpcode,
    Field::AParam,
    Field::ASize,
    Field::ASource,
    Field::AAddress,
    Field::AMask,
    Field::AData,
];

/// The fields of a beat of channel D.
pub const D_BEAT: [Field; 5] = [
    Field::DOpcode,
    Field::DSize,
    Field::DSource,
    Field::DDenied,
    Field::DData,
];

impl Field {
    /// Its name.
    pub fn name(self) -> &'static str
        ensures { result.now ≡ spec.field_name self }
    {
        match self {
            Field::AReady => "a_ready",
            Field::AValid => "a_valid",
            Field::AOpcode => "a_opcode",
            Field::AParam => "a_param",
            Field::ASize => "a_size",
            Field::ASource => "a_source",
            Field::AAddress => "a_address",
            Field::AMask => "a_mask",
            Field::AData => "a_data",
            Field::DReady => "d_ready",
            Field::DValid => "d_valid",
            Field::DOpcode => "d_opcode",
            Field::DSize => "d_size",
            Field::DSource => "d_source",
            Field::DDenied => "d_denied",
            Field::DData => "d_data",
        }
    }
}
