//! How long requests took.

/// How many requests took at most a time.
#[derive(Clone, Copy, Debug, PartialEq, Eq)]
pub struct TimeCount {
    /// That time, in microseconds.
    pub upto: u64,
    pub count: u64,
}

/// How long requests took, each from the moment at which the ring was asked to its answer.
#[derive(Debug, Drop)]
pub struct RequestTimes {
    /// The least time first.
    pub within: Vec<TimeCount>,
    /// How many requests there were.
    pub count: u64,
    /// How many microseconds they took together.
    pub sum: u64,
}
