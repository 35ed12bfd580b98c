/// The most bytes of a name of a design, a module or a node, and of a node's kind.
pub const MOST_NAME_BYTES: usize = 32;
/// The most modules of a design besides the top one.
pub const MOST_MODULES: usize = 255;
/// The most nodes of a design.
pub const MOST_NODES: usize = 256;
/// The most binds of a design.
pub const MOST_BINDS: usize = 1024;
/// The most arguments of a node.
pub const MOST_ARGS: usize = 8;
/// The most ports of a source or a sink.
pub const MOST_PORTS: usize = 64;
/// The most address sets of a port of a sink.
pub const MOST_SETS: usize = 16;
/// The most ids of a source at each port.
pub const MOST_SOURCE_IDS: u32 = 64;
/// The greatest transfer of an arithmetic or a logical operation in bytes.
pub const MOST_ATOMIC: u32 = 8;
