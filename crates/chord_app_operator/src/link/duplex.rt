//! Both directions of a stream.

/// A reader and a writer as one stream.
#[derive(Drop)]
pub struct Duplex<R, W> {
    pub reader: R,
    pub writer: W,
}
