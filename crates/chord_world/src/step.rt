//! The steps of a world.

use chord_ident::Id;
use chord_map::Request;

/// One step of a world.
#[derive(Debug, Drop)]
pub enum Step {
    /// The first node is created with the whole circle.
    Create {
        id: Id,
    },
    /// A node joins behind the member `behind`, and holds nothing.
    Join {
        id: Id,
        behind: u64,
    },
    /// A caller opens with a window of 1 to 16 requests.
    OpenCaller {
        window: u64,
    },
    /// The caller submits a request, to be answered at the node `via`.
    Submit {
        caller: u64,
        via: u64,
        request: Request,
    },
    /// The caller sends a pending request again, to be answered at the node `via`: the one of this
    /// number, or, if `None`, the least pending one.
    Resend {
        caller: u64,
        via: u64,
        number: Option<u64>,
    },
    /// The caller gives its pending request of this number up: it settles it without a reply.
    GiveUp {
        caller: u64,
        number: u64,
    },
    /// The message that was sent under this number is delivered to its node or caller.
    Deliver {
        message: u64,
    },
    /// The caller sends a note of what it knows.
    Show {
        caller: u64,
    },
    /// The caller learns the calls of the note that was sent under this number.
    Meet {
        caller: u64,
        message: u64,
    },
    /// The node cuts the held segment at this index.
    Cut {
        node: u64,
        place: u64,
        at: Id,
    },
    /// The node joins the held segment at the index
    /// `behind` behind the one at `place`, at that index.
    Merge {
        node: u64,
        place: u64,
        behind: u64,
    },
    /// The node gives the held segment at this index to the node `to`.
    Give {
        node: u64,
        place: u64,
        to: u64,
    },
    /// The node sends a part, counted from 1, of its handover of this number to the node `to`.
    SendPart {
        node: u64,
        to: u64,
        number: u64,
        part: u64,
    },
    /// The node begins to leave.
    Leave {
        node: u64,
    },
    /// The leaving node, which holds nothing and has an empty outbox, is gone.
    Retire {
        node: u64,
    },
    /// The member copies the list of its first entry `head`.
    Stabilise {
        node: u64,
        head: u64,
    },
    /// The member takes the nearer node `peer` as its first entry.
    Candidate {
        node: u64,
        peer: u64,
    },
    /// The member drops its dead first entry.
    DropDead {
        node: u64,
    },
    /// The member hears of the member `notifier`, which may be its predecessor.
    Rectify {
        node: u64,
        notifier: u64,
    },
    /// The member crashes: it does nothing until it is rescued, and is dead for the others.
    Crash {
        node: u64,
    },
    /// The crashed node takes steps again, as a leaving node that is no member.
    Rescue {
        node: u64,
    },
    /// The finger of this node, 1 to 128, is set to the node `to`.
    Finger {
        node: u64,
        finger: u64,
        to: u64,
    },
}
