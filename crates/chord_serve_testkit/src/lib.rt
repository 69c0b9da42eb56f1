//! What tests of connections share: askers over a plain map, devices that move few bytes in a call
//! and fail after some calls, or that fail after some bytes, the first frame of a connection, and
//! clients over loopback, with lists of what they do.
#![tactic(auto)]

mod acts;
mod askers;
mod clients;
mod cut;
mod devices;
mod opening;

pub use acts::{Act, Acts, Addresses, Answer, Ask, NOTHING, Script, do_acts, do_acts_at};
pub use askers::{MapAsker, added, asked_of, note};
pub use clients::{
    ask, bound, expect, expect_end, fill, insert, leave, reply_frame, request_frame, retrieve,
};
pub use cut::Cut;
pub use devices::{FREE, Limited, Limits};
pub use opening::greeted;
