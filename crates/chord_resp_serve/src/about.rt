/// What the commands about the server are answered.
#[derive(Clone, Copy, Debug)]
pub struct About<'a> {
    /// The connection's number.
    pub number: u64,
    /// The text of INFO, or the answer to TIME.
    pub info: &'a [u8],
}
