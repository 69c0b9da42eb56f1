/// A moment: how many seconds passed since 1970 began, and how many microseconds of the next one.
#[derive(Clone, Copy, Debug, PartialEq, Eq)]
pub struct Moment {
    pub seconds: u64,
    pub micros: u32,
}
