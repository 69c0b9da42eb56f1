use chord_map::{Bytes, Request};

/// A request that was asked, and the frame of its reply, if it has one.
#[derive(Debug, Drop)]
pub struct AskedRequest {
    pub request: Request,
    pub frame: Option<Bytes>,
}
