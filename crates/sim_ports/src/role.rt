/// What a device is prepared as. Each device states what it makes of it; `Cells` does what is said here.
#[derive(Clone, Copy, Debug, PartialEq, Eq)]
pub enum Role {
    /// It starts with zeros and does all requests.
    Ram,
    /// It holds at each address the low eight bits of it, and denies all that writes.
    Rom,
    /// It denies all requests.
    Deny,
}
