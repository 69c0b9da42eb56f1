//! How a caller judges a reply.

/// Whether a reply is the first to its request, or the request was over before.
#[derive(Clone, Copy, Debug, PartialEq, Eq)]
pub enum Heard {
    Fresh,
    Known,
}
