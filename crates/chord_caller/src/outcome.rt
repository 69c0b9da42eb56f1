//! How a client judges a reply.

use chord_map::Reply;

/// The first reply to a pending request, handed out;
/// a reply to a request already over; or any other.
#[derive(Debug, Drop)]
pub enum TakeOutcome {
    Fresh(Reply),
    Known,
    Foreign,
}
