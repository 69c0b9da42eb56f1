//! The links of all members, while a departure is judged.
ghost use Rattle.std.specs.Prelude.{◌≡◌, ◌<◌, ◌++◌, [], IfOk, length};
ghost use Rattle.chord_live_steps.specs.Departures.{row_of};
ghost use Rattle.chord_table.specs.Scenes.{place_of};

use chord_links::Links;
use chord_node::{Node, Phase};
use chord_ring::MemberRow;
use chord_store::EntryStore;
use chord_table::Naming;
use std::alloc::{AllocError, Global};
use std::marker::{Model, PhantomData};

/// The rows of members, with room for all slots. Contracts see the rows.
#[derive(Drop)]
pub(crate) struct Board<J: Naming> {
    rows: Vec<MemberRow>,
    of: PhantomData<J>,
}

impl<J: Naming> Model for Board<J> {
    ghost use Rattle.std.specs.Prelude.{◌≤◌, List, vec_capacity};
    ghost use Rattle.chord_ring.specs.declared.member_row.MemberRow.{MemberRow};

    ghost Value = { List MemberRow };

    ghost view = { λ board. board.rows.items };

    ghost invariant = { λ board. J.name.slots ≤ vec_capacity board.rows };
}

impl<J: Naming> Board<J> {
    /// No rows, with room for `slots` of them.
    pub(crate) fn new(alloc: Global, slots: usize) -> Result<Board<J>, AllocError>
        requires { slots ≡ J.name.slots }
        ensures { IfOk result (λ board. board ≡ []) }
    {
        let rows = Vec::with_capacity(alloc, slots)?;
        Ok(Board {
            rows,
            of: PhantomData,
        })
    }

    /// Wipes all rows.
    pub(crate) fn clear(&mut self)
        ensures { self.new ≡ [] }
    {
        self.rows.clear();
    }

    /// Posts a node, which crashed or not, if it is a member.
    #[tactic(auto, using(crate::proofs::Departures::no_row))]
    pub(crate) fn post<S: EntryStore>(&mut self, node: &Node<S>, crashed: bool)
        requires { length self.old < J.name.slots }
        ensures { self.new ≡ self.old ++ row_of node.now.number (place_of crashed node.now) }
    {
        if let Some(links) = place_of(node, crashed) {
            let number = node.number();
            self.rows.push_reserved(MemberRow { number, links });
        }
    }

    /// The rows.
    pub(crate) fn rows(&self) -> &[MemberRow]
        ensures { result.now ≡ self.now }
    {
        self.rows.as_slice()
    }
}

/// What the ring has of a node: its links without fingers, unless it crashed or is gone.
fn place_of<S: EntryStore>(node: &Node<S>, crashed: bool) -> Option<Links>
    ensures { result ≡ place_of crashed node.now }
{
    if crashed || node.phase() == Phase::Gone {
        return None;
    }
    let links = node.links();
    let mut bare = Links::alone(links.me(), links.r());
    bare.set_predecessor(links.predecessor());
    bare.set_list(*links.list());
    Some(bare)
}
