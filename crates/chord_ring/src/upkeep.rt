//! The steps of a ring's upkeep on the links of a member, however the members' links are stored.
ghost use Rattle.std.specs.Prelude.{◌≡◌, IfOk, IfErr};
ghost use Rattle.chord_ring.specs.Steps.{with_links, Stabilises, TakesCandidate, DropsDead, Rectifies, is_live};
ghost use Rattle.chord_ring.specs.Refusals.{StabiliseRefused, CandidateRefused, DropRefused, RectifyRefused, IsCandidate, GaveWay, AreOwn};

use crate::members::MemberReader;
use crate::ring_fault::RingFault;
use crate::steps::{CandidateFault, StabiliseFault, drop_dead, rectify, stabilise, take_candidate};
use chord_links::{Links, Peer};

/// Whether the peer, if there is one, is live.
fn is_live<M: MemberReader>(members: &M, peer: Option<Peer>) -> bool
    ensures { result ≡ is_live (M.ring members.now).members peer }
{
    match peer {
        Some(peer) => members.member(peer.number).is_some(),
        None => false,
    }
}

/// A member's links after it copied the list of its
/// first entry, and the candidate it learned from there.
pub fn stabilise_in<M: MemberReader>(
    members: &M,
    number: u64,
    head: u64,
) -> Result<(Links, Option<Peer>), RingFault>
    ensures done { IfOk result (λ did. Stabilises (M.ring members.now) number head (with_links (M.ring members.now) number did.0)) }
    ensures own { IfOk result (λ did. AreOwn (M.ring members.now) number did.0) }
    ensures candidate { IfOk result (λ did. IsCandidate (M.ring members.now) number head did.1) }
    ensures fault { IfErr result (λ fault. StabiliseRefused (M.ring members.now) number head fault) }
{
    let Some(links) = members.member(number) else {
        return Err(RingFault::NoSuchNode);
    };
    if head >= members.count() {
        return Err(RingFault::NoSuchNode);
    }
    let Some(theirs) = members.member(head) else {
        return Err(RingFault::Stabilise(StabiliseFault::HeadDead));
    };
    let mut links = *links;
    let candidate = stabilise(&mut links, theirs, true).map_err(RingFault::Stabilise)?;
    Ok((links, candidate))
}

/// A member's links after it took a nearer live node as its first entry.
pub fn take_candidate_in<M: MemberReader>(
    members: &M,
    number: u64,
    peer: u64,
) -> Result<Links, RingFault>
    ensures done { IfOk result (λ links. TakesCandidate (M.ring members.now) number peer (with_links (M.ring members.now) number links)) }
    ensures own { IfOk result (λ links. AreOwn (M.ring members.now) number links) }
    ensures fault { IfErr result (λ fault. CandidateRefused (M.ring members.now) number peer fault) }
{
    let Some(links) = members.member(number) else {
        return Err(RingFault::NoSuchNode);
    };
    if peer >= members.count() {
        return Err(RingFault::NoSuchNode);
    }
    let Some(theirs) = members.member(peer) else {
        return Err(RingFault::Candidate(CandidateFault::Dead));
    };
    let mut links = *links;
    take_candidate(&mut links, theirs, true).map_err(RingFault::Candidate)?;
    Ok(links)
}

/// A member's links after it dropped its dead first entry.
pub fn drop_dead_in<M: MemberReader>(members: &M, number: u64) -> Result<Links, RingFault>
    ensures done { IfOk result (λ links. DropsDead (M.ring members.now) number (with_links (M.ring members.now) number links)) }
    ensures own { IfOk result (λ links. AreOwn (M.ring members.now) number links) }
    ensures fault { IfErr result (λ fault. DropRefused (M.ring members.now) number fault) }
{
    let Some(links) = members.member(number) else {
        return Err(RingFault::NoSuchNode);
    };
    let mut links = *links;
    let live = members.member(links.first().number).is_some();
    drop_dead(&mut links, live).map_err(RingFault::Drop)?;
    Ok(links)
}

/// A member's links after it heard of a member that
/// may be its predecessor, and whether that now is.
pub fn rectify_in<M: MemberReader>(
    members: &M,
    number: u64,
    notifier: u64,
) -> Result<(Links, bool), RingFault>
    ensures done { IfOk result (λ did. Rectifies (M.ring members.now) number notifier (with_links (M.ring members.now) number did.0)) }
    ensures own { IfOk result (λ did. AreOwn (M.ring members.now) number did.0) }
    ensures answer { IfOk result (λ did. GaveWay (M.ring members.now) number notifier did.1) }
    ensures fault { IfErr result (λ fault. RectifyRefused (M.ring members.now) number notifier fault) }
{
    let Some(links) = members.member(number) else {
        return Err(RingFault::NoSuchNode);
    };
    let Some(theirs) = members.member(notifier) else {
        return Err(RingFault::NoSuchNode);
    };
    let mut links = *links;
    let live = is_live(members, links.predecessor());
    let did = rectify(&mut links, theirs.me(), live);
    Ok((links, did))
}
