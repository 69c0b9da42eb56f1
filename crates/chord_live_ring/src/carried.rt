//! The envelope of an answer to a carried call.

use chord_table::{Envelope, Naming};

/// An envelope for a caller, and the node that sent it.
#[derive(Drop)]
pub struct Carried<J: Naming> {
    pub from: u64,
    pub caller: u64,
    pub envelope: Envelope<J>,
}
