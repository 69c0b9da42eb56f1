//! The steps of a ring, and what they preserve.
//!
//! Joining, stabilising, taking a candidate, dropping a dead first entry and rectifying: each works
//! over any [`MemberReader`], so a world and a running ring share them. [`RingCore`] is a ring in
//! memory. [`can_depart_among`] says whether a member may leave or fail and the ring stays safe.
//!
//! A principal is a member that no member's list skips. It stays one until it departs, and the
//! principals are on one ring ([`principals_stand_on_one_ring`]).
#![tactic(auto)]

mod departing;
mod invariant;
mod member_row;
mod members;
mod ring_core;
mod ring_fault;
mod ring_step;
mod steps;
mod upkeep;

pub use departing::{can_depart_among, can_depart_in};
pub use invariant::principals_stand_on_one_ring;
pub use member_row::MemberRow;
pub use members::MemberReader;
pub use ring_core::RingCore;
pub use ring_fault::RingFault;
pub use ring_step::{RingDid, RingStep};
pub use steps::{
    CandidateFault, DropFault, NotBetween, StabiliseFault, drop_dead, join_behind, rectify,
    stabilise, take_candidate,
};
pub use upkeep::{drop_dead_in, rectify_in, stabilise_in, take_candidate_in};
