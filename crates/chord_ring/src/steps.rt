//! The steps on one node's links.
ghost use Rattle.std.specs.Prelude.{◌≡◌, ◌<◌, ◌↔◌, length, IsTrue, IsOk, IfOk, IfErr, OnOk, OnErr, true, false};
ghost use Rattle.chord_ident.specs.Circle.{IsBetween};
ghost use Rattle.chord_links.specs.NodeLinks.{first_entry};
ghost use Rattle.chord_ring.specs.Steps.{joined_links, links_behind, without_head, candidate_of, gives_way, rectified_links};

use chord_ident::between;
use chord_links::{Links, Peer, SuccList};
use thiserror::Error;

/// The new node is not between its predecessor and that node's first entry.
#[derive(Clone, Copy, Debug, PartialEq, Eq, Error)]
#[error("the new node does not lie before the first entry")]
pub struct NotBetween;

/// Why a node does not copy the list of another.
#[derive(Clone, Copy, Debug, PartialEq, Eq, Error)]
pub enum StabiliseFault {
    #[error("the first entry is dead")]
    HeadDead,
    #[error("the node is not the first entry")]
    NotHead,
}

/// Why a node does not take a candidate.
#[derive(Clone, Copy, Debug, PartialEq, Eq, Error)]
pub enum CandidateFault {
    #[error("the candidate is dead")]
    Dead,
    #[error("the candidate does not lie before the first entry")]
    NotCloser,
}

/// Why a node does not drop its first entry.
#[derive(Clone, Copy, Debug, PartialEq, Eq, Error)]
pub enum DropFault {
    #[error("the first entry is live")]
    HeadLive,
    #[error("there is no other entry")]
    Empty,
}

/// The links of a new node behind its predecessor.
pub fn join_behind(new: Peer, pred: &Links) -> Result<Links, NotBetween>
    ensures variant { IsOk result ↔
        IsBetween pred.now.me.id.number new.id.number (first_entry pred.now).id.number }
    ensures ok { IfOk result (λ links. links ≡ joined_links new pred.now) }
{
    if !between(pred.me().id, new.id, pred.first().id) {
        return Err(NotBetween);
    }
    let mut links = Links::alone(new, pred.r());
    links.set_predecessor(Some(pred.me()));
    links.set_list(SuccList::behind_predecessor(new, pred.r(), pred.list()));
    Ok(links)
}

/// Copies the list of the live first entry; answers
/// that entry's predecessor if it is between the two.
pub fn stabilise(me: &mut Links, head: &Links, live: bool) -> Result<Option<Peer>, StabiliseFault>
    ensures variant { IsOk result ↔ (IsTrue live × (first_entry me.old ≡ head.now.me)) }
    ensures ok { IfOk result (λ candidate. candidate ≡ candidate_of me.old head.now) }
    ensures done { OnOk result (me.new ≡ links_behind me.old head.now) }
    ensures fault { IfErr result (λ fault. (fault ≡ StabiliseFault.HeadDead) ↔ (live ≡ false)) }
    ensures kept { OnErr result (me.new ≡ me.old) }
{
    if !live {
        return Err(StabiliseFault::HeadDead);
    }
    let own = me.me();
    let first = head.me();
    if me.first() != first {
        return Err(StabiliseFault::NotHead);
    }
    let candidate = match head.predecessor() {
        Some(peer) if between(own.id, peer.id, first.id) => Some(peer),
        _ => None,
    };
    let list = SuccList::behind_successor(own, me.r(), first, head.list());
    me.set_list(list);
    Ok(candidate)
}

/// Makes a live peer between the node and its first entry the first entry, and copies its list.
pub fn take_candidate(me: &mut Links, peer: &Links, live: bool) -> Result<(), CandidateFault>
    ensures variant { IsOk result ↔ (IsTrue live
        × IsBetween me.old.me.id.number peer.now.me.id.number (first_entry me.old).id.number) }
    ensures done { OnOk result (me.new ≡ links_behind me.old peer.now) }
    ensures fault { IfErr result (λ fault. (fault ≡ CandidateFault.Dead) ↔ (live ≡ false)) }
    ensures kept { OnErr result (me.new ≡ me.old) }
{
    if !live {
        return Err(CandidateFault::Dead);
    }
    if !between(me.me().id, peer.me().id, me.first().id) {
        return Err(CandidateFault::NotCloser);
    }
    let list = SuccList::behind_successor(me.me(), me.r(), peer.me(), peer.list());
    me.set_list(list);
    Ok(())
}

/// Drops the dead first entry, if there is another.
pub fn drop_dead(me: &mut Links, head_live: bool) -> Result<(), DropFault>
    ensures variant { IsOk result ↔ ((head_live ≡ false) × (1 < length me.old.entries)) }
    ensures done { OnOk result (me.new ≡ without_head me.old) }
    ensures fault { IfErr result (λ fault. (fault ≡ DropFault.HeadLive) ↔ IsTrue head_live) }
    ensures kept { OnErr result (me.new ≡ me.old) }
{
    if head_live {
        return Err(DropFault::HeadLive);
    }
    let mut list = *me.list();
    if list.drop_head().is_err() {
        return Err(DropFault::Empty);
    }
    me.set_list(list);
    Ok(())
}

/// Hears of a node that may be the predecessor, and answers whether it now is.
pub fn rectify(me: &mut Links, notifier: Peer, predecessor_live: bool) -> bool
    ensures answer { result ≡ gives_way me.old.me notifier predecessor_live me.old.predecessor }
    ensures done { me.new ≡ rectified_links me.old notifier result }
{
    let gives = match me.predecessor() {
        None => true,
        Some(predecessor) => !predecessor_live || between(predecessor.id, notifier.id, me.me().id),
    };
    if gives {
        me.set_predecessor(Some(notifier));
    }
    gives
}
