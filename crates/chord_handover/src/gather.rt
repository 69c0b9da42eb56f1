//! What the parts that arrived make together.

use crate::payload::Payload;

/// What a part makes with the buffered parts of its handover: an incomplete handover, parts that do
/// not fit together, or the whole payload.
#[derive(Debug, Drop)]
pub enum Gather {
    More,
    Unfit,
    Whole(Payload),
}
