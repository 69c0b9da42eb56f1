//! Whether a member can depart.
ghost use Rattle.std.specs.Prelude.{◌≡◌, ℕ, ◌<◌, ◌↔◌, IsTrue, is_some, IsSome, slice_set, None, Some, []};
ghost use Rattle.std.specs.Option.{option_copied};
ghost use Rattle.chord_links.specs.NodeLinks.{NodeLinks};
ghost use Rattle.chord_links.specs.Successors.{Skips};
ghost use Rattle.chord_ring.specs.Ring.{links_of, is_member, first_live, IsPrincipal, CanDepart};
ghost use Rattle.chord_ring.specs.Rows.{members_among, number_in};

use crate::member_row::{MemberRow, links_in};
use crate::members::MemberReader;
use chord_ident::{Id, between};
use chord_links::Links;

/// The links of the member `number` once `gone` has departed.
fn member_without<M: MemberReader>(members: &M, gone: u64, number: u64) -> Option<&Links>
    ensures { option_copied result ≡ links_of (slice_set (M.ring members.now).members gone None) number }
{
    if number == gone {
        return None;
    }
    members.member(number)
}

/// Whether an entry of the list is live once `gone` has departed.
fn has_live_entry<M: MemberReader>(members: &M, gone: u64, links: &Links) -> bool
    ensures { result ≡ is_some (first_live (slice_set (M.ring members.now).members gone None) links.now.entries) }
{
    for peer in links.list().entries() {
        if member_without(members, gone, peer.number).is_some() {
            return true;
        }
    }
    false
}

/// Whether a list skips an identifier.
fn skips(links: &Links, x: Id) -> bool
    ensures { IsTrue result ↔ Skips links.now.me.id.number links.now.entries x.number }
{
    let mut before = links.me().id;
    for peer in links.list().entries() {
        if between(before, x, peer.id) {
            return true;
        }
        before = peer.id;
    }
    false
}

/// Whether node `number` is a principal once `gone` has departed.
fn is_principal<M: MemberReader>(members: &M, gone: u64, number: u64) -> bool
    ensures yes { IsTrue result → IsPrincipal (slice_set (M.ring members.now).members gone None) number }
    ensures number { IsPrincipal (slice_set (M.ring members.now).members gone None) number → IsTrue result }
{
    let Some(links) = member_without(members, gone, number) else {
        return false;
    };
    let id = links.me().id;
    for place in 0..members.listed() {
        if let Some(theirs) = member_without(members, gone, members.listed_at(place)) {
            if skips(theirs, id) {
                return false;
            }
        }
    }
    true
}

/// Whether each member's list has a live entry once `gone` has departed.
fn are_live<M: MemberReader>(members: &M, gone: u64) -> bool
    ensures { let left = slice_set (M.ring members.now).members gone None in IsTrue result ↔
        ((number : ℕ) (links : NodeLinks) → links_of left number ≡ Some links → IsSome (first_live left links.entries)) }
{
    for place in 0..members.listed() {
        if let Some(links) = member_without(members, gone, members.listed_at(place)) {
            if !has_live_entry(members, gone, links) {
                return false;
            }
        }
    }
    true
}

/// Whether there is a principal once `gone` has departed.
fn has_principal<M: MemberReader>(members: &M, gone: u64) -> bool
    ensures yes { IsTrue result → (number : ℕ) × IsPrincipal (slice_set (M.ring members.now).members gone None) number }
    ensures number { (number : ℕ) → IsPrincipal (slice_set (M.ring members.now).members gone None) number → IsTrue result }
{
    for place in 0..members.listed() {
        if is_principal(members, gone, members.listed_at(place)) {
            return true;
        }
    }
    false
}

/// Whether node `number` is a member and, once it has departed, each member's list has a live entry
/// and there is a principal. At worst it reads each list once for each member.
pub fn can_depart_in<M: MemberReader>(members: &M, number: u64) -> bool
    ensures { IsTrue result ↔ CanDepart (M.ring members.now).members number }
{
    members.member(number).is_some() && are_live(members, number) && has_principal(members, number)
}

/// Rows of members, and how many nodes ever joined their ring.
#[derive(Clone, Copy)]
struct Rows<'a> {
    rows: &'a [MemberRow],
    count: u64,
}

impl<'a> MemberReader for Rows<'a> {
    ghost ring = { λ it. record { ids = []; members = members_among it.count it.rows.now } };

    ghost number_at = { λ it place. number_in it.rows.now place };

    fn member(&self, number: u64) -> Option<&Links> {
        if number >= self.count {
            return None;
        }
        links_in(self.rows, number)
    }

    fn count(&self) -> u64 {
        self.count
    }

    fn listed(&self) -> u64 {
        self.rows.len() as u64
    }

    fn listed_at(&self, place: u64) -> u64 {
        match self.rows.get(place as usize) {
            Some(row) => row.number,
            None => 0,
        }
    }
}

/// `can_depart_in` over rows of the members, in any order, of a ring that `count` nodes ever
/// joined. A row of a number that no node ever had is passed over.
pub fn can_depart_among(rows: &[MemberRow], count: u64, number: u64) -> bool
    ensures { IsTrue result ↔ CanDepart (members_among count rows.now) number }
{
    can_depart_in(&Rows { rows, count }, number)
}
