//! Messages that were sent.

use chord_node::Message;

/// A sent message, and the node that it goes to if it is an Ask.
#[derive(Debug, Drop)]
pub(crate) struct Sent {
    pub(crate) message: Message,
    pub(crate) to: Option<u64>,
}
