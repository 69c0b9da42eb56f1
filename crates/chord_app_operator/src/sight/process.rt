//! What the server's process takes of the machine.

/// What the system tells of the process; 0 where it tells nothing.
#[derive(Clone, Copy, Debug, Default, PartialEq, Eq)]
pub struct ProcessSight {
    /// How many bytes of memory it has.
    pub resident: u64,
    /// How many milliseconds of a processor it took.
    pub processor_ms: u64,
}
