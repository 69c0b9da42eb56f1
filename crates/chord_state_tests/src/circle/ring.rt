//! Rings of two and of three nodes.
ghost use Rattle.std.specs.Prelude.{[]};

use crate::checks::check;
use chord_ident::Id;
use chord_links::{Links, Peer};
use chord_ring::{
    CandidateFault, DropFault, MemberReader, MemberRow, NotBetween, RingCore, RingDid, RingFault,
    RingStep, StabiliseFault, can_depart_among, can_depart_in, drop_dead, drop_dead_in,
    join_behind, principals_stand_on_one_ring, rectify, rectify_in, stabilise, stabilise_in,
    take_candidate, take_candidate_in,
};
use std::alloc::Global;
use std::process::Abort;

const A: Id = Id {
    number: 0x4000_0000_0000_0000_0000_0000_0000_0000,
};

const B: Id = Id {
    number: 0x8000_0000_0000_0000_0000_0000_0000_0000,
};

const C: Id = Id {
    number: 0xc000_0000_0000_0000_0000_0000_0000_0000,
};

/// Checks the list of a member.
fn list_of(rt: &impl Abort, ring: &RingCore, number: u64, wanted: &[Peer]) {
    let links = ring.links(number).expect(rt, "a member");
    check!(rt; links.list().entries() == wanted);
}

/// A ring of A and C, where A has taken C as its first entry.
fn two_nodes(rt: &impl Abort, alloc: Global) -> RingCore {
    let a = Peer { number: 0, id: A };
    let c = Peer { number: 1, id: C };
    let mut ring = RingCore::found(alloc, A, 3).expect(rt, "memory");
    list_of(rt, &ring, 0, &[a]);
    check!(rt; ring.reserve() == Ok(()));
    check!(rt; ring.step(RingStep::Join(C, 0)) == Ok(RingDid::Joined(1)));
    list_of(rt, &ring, 1, &[a]);
    check!(rt; ring.step(RingStep::Rectify(0, 1)) == Ok(RingDid::Done));
    check!(rt; ring.step(RingStep::Stabilise(0, 0)) == Ok(RingDid::Candidate(Some(c))));
    list_of(rt, &ring, 0, &[a]);
    check!(rt; ring.step(RingStep::Candidate(0, 1)) == Ok(RingDid::Done));
    list_of(rt, &ring, 0, &[c, a]);
    ring
}

#[test]
fn the_last_principal_stays(rt: HostRuntime) {
    let mut ring = two_nodes(&rt, rt.alloc());
    check!(&rt; !ring.can_depart(0));
    check!(&rt; ring.can_depart(1));
    ring.depart(1);
    check!(&rt; !ring.is_member(1) && ring.is_member(0));
    check!(&rt; ring.links(1) == None);
    check!(&rt; !ring.can_depart(0));
    check!(&rt; ring.step(RingStep::Join(A, 0)) == Err(RingFault::IdTaken));
    check!(&rt; ring.step(RingStep::Join(C, 0)) == Err(RingFault::IdTaken));
    check!(&rt; ring.step(RingStep::Rectify(0, 1)) == Err(RingFault::NoSuchNode));
    ring.stands_on_one_ring();
    principals_stand_on_one_ring();
}

#[test]
fn a_dead_head_is_dropped(rt: HostRuntime) {
    let a = Peer { number: 0, id: A };
    let b = Peer { number: 2, id: B };
    let c = Peer { number: 1, id: C };
    let mut ring = two_nodes(&rt, rt.alloc());
    check!(&rt; ring.step(RingStep::Join(B, 0)) == Ok(RingDid::Joined(2)));
    list_of(&rt, &ring, 2, &[c, a]);
    check!(&rt; ring.step(RingStep::Candidate(0, 2)) == Ok(RingDid::Done));
    list_of(&rt, &ring, 0, &[b, c, a]);
    check!(&rt;
        ring.step(RingStep::Candidate(0, 1)) == Err(RingFault::Candidate(CandidateFault::NotCloser))
    );
    check!(&rt; ring.step(RingStep::DropDead(0)) == Err(RingFault::Drop(DropFault::HeadLive)));
    check!(&rt; ring.can_depart(2));
    ring.depart(2);
    check!(&rt;
        ring.step(RingStep::Stabilise(0, 2)) == Err(RingFault::Stabilise(StabiliseFault::HeadDead))
    );
    check!(&rt; ring.step(RingStep::DropDead(0)) == Ok(RingDid::Done));
    list_of(&rt, &ring, 0, &[c, a]);
    check!(&rt; ring.step(RingStep::Stabilise(0, 1)) == Ok(RingDid::Candidate(None)));
    list_of(&rt, &ring, 0, &[c, a]);
}

#[test]
fn steps_change_links(rt: HostRuntime) {
    let a = Peer { number: 0, id: A };
    let b = Peer { number: 2, id: B };
    let c = Peer { number: 1, id: C };
    let mut mine = Links::alone(a, 3);
    check!(&rt; join_behind(a, &mine) == Err(NotBetween));
    let theirs = join_behind(c, &mine).expect(&rt, "between");
    check!(&rt; theirs.predecessor() == Some(a));
    check!(&rt; theirs.list().entries() == [a].as_slice());
    check!(&rt; rectify(&mut mine, c, false));
    check!(&rt; !rectify(&mut mine, b, true));
    check!(&rt; mine.predecessor() == Some(c));
    let copy = mine;
    check!(&rt; stabilise(&mut mine, &copy, true) == Ok(Some(c)));
    check!(&rt; stabilise(&mut mine, &copy, false) == Err(StabiliseFault::HeadDead));
    check!(&rt; stabilise(&mut mine, &theirs, true) == Err(StabiliseFault::NotHead));
    check!(&rt; take_candidate(&mut mine, &theirs, false) == Err(CandidateFault::Dead));
    check!(&rt; take_candidate(&mut mine, &theirs, true) == Ok(()));
    check!(&rt; mine.list().entries() == [c, a].as_slice());
    let rows = [
        MemberRow {
            number: 1,
            links: theirs,
        },
        MemberRow {
            number: 0,
            links: mine,
        },
    ];
    check!(&rt; can_depart_among(&rows, 2, 1), "A stays a principal without C");
    check!(&rt; !can_depart_among(&rows, 2, 0), "C's list has A alone");
    check!(&rt; !can_depart_among(&rows, 3, 2), "node 2 departed");
    check!(&rt; !can_depart_among(&rows, 1, 1), "no node 1 ever joined");
    check!(&rt; take_candidate(&mut mine, &theirs, true) == Err(CandidateFault::NotCloser));
    check!(&rt; drop_dead(&mut mine, true) == Err(DropFault::HeadLive));
    check!(&rt; drop_dead(&mut mine, false) == Ok(()));
    check!(&rt; mine.list().entries() == [a].as_slice());
    check!(&rt; drop_dead(&mut mine, false) == Err(DropFault::Empty));
}

/// Members whose links are in a list of the test's own.
#[derive(Clone, Copy)]
struct Members<'a> {
    links: &'a [Option<Links>],
}

impl MemberReader for Members<'_> {
    ghost ring = { λ members. record { ids = []; members = members.links.now } };

    ghost number_at = { λ members place. place };

    fn member(&self, number: u64) -> Option<&Links> {
        match self.links.get(number as usize) {
            Some(Some(links)) => Some(links),
            _ => None,
        }
    }

    fn count(&self) -> u64 {
        self.links.len() as u64
    }

    fn listed(&self) -> u64 {
        self.count()
    }

    fn listed_at(&self, place: u64) -> u64 {
        place
    }
}

/// A node that heard of no other, and C that joined behind it.
fn joined() -> Option<[Option<Links>; 2]> {
    let alone = Links::alone(Peer { number: 0, id: A }, 3);
    let behind = join_behind(Peer { number: 1, id: C }, &alone).ok()?;
    Some([Some(alone), Some(behind)])
}

#[test]
fn upkeep_reads_any_list_of_links(rt: HostRuntime) {
    let a = Peer { number: 0, id: A };
    let c = Peer { number: 1, id: C };
    let [mine, theirs] = joined().expect(&rt, "C is between A and A");
    let links = [mine, theirs];
    let members = Members { links: &links };
    let (mine, is_new) = rectify_in(&members, 0, 1).expect(&rt, "two members");
    check!(&rt; is_new && mine.predecessor() == Some(c), "A hears of C");
    check!(&rt;
        rectify_in(&members, 0, 2) == Err(RingFault::NoSuchNode),
        "there is no third member"
    );
    let links = [Some(mine), theirs];
    let members = Members { links: &links };
    let stabilised = stabilise_in(&members, 0, 0);
    check!(&rt;
        stabilised == Ok((mine, Some(c))),
        "A learns of C from itself"
    );
    check!(&rt;
        stabilise_in(&members, 0, 1) == Err(RingFault::Stabilise(StabiliseFault::NotHead)),
        "C is not A's first entry yet"
    );
    let mine = take_candidate_in(&members, 0, 1).expect(&rt, "C is nearer");
    check!(&rt;
        mine.list().entries() == [c, a].as_slice(),
        "C is A's first entry now"
    );
    let links = [Some(mine), theirs];
    let members = Members { links: &links };
    check!(&rt;
        take_candidate_in(&members, 0, 1) == Err(RingFault::Candidate(CandidateFault::NotCloser)),
        "C is no nearer than itself"
    );
    check!(&rt;
        drop_dead_in(&members, 0) == Err(RingFault::Drop(DropFault::HeadLive)),
        "C is live"
    );
    check!(&rt; can_depart_in(&members, 1), "A stays a principal without C");
    check!(&rt; !can_depart_in(&members, 0), "C's list has A alone");
    let links = [Some(mine), None];
    let members = Members { links: &links };
    let mine = drop_dead_in(&members, 0).expect(&rt, "C departed");
    check!(&rt;
        mine.list().entries() == [a].as_slice(),
        "A's list has A alone"
    );
}
