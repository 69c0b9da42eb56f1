/// What is left of a command.
#[derive(Clone, Copy, Debug, PartialEq, Eq)]
pub struct Left {
    /// How many words are still to come, with the one that is not whole.
    pub words: u32,
    /// How many bytes the words may have whose length has not come.
    pub bytes: u32,
}
