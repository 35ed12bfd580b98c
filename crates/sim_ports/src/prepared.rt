use dip_lists::Items;

/// The addresses at which the device of a sink port was prepared, rising and each once.
#[derive(Debug, Drop)]
pub struct Prepared {
    pub addresses: Items<u64>,
}
