//! All nodes and callers, every message ever sent, and the history.
ghost use Rattle.std.specs.Prelude.{◌≡◌, ◌≤◌, [], map, slice_get};
ghost use Rattle.std.specs.List.{All};
ghost use Rattle.std.specs.Option.{option_copied};
ghost use Rattle.chord_model.specs.Headline.{Headline};
ghost use Rattle.chord_model.specs.World.{Reached};
ghost use Rattle.chord_world.specs.State.{new_world, KeepsRing};
ghost use Rattle.chord_world.specs.Steps.{StepIs, StoresLeft, AdvancesBy};
ghost use Rattle.chord_world.specs.Runs.{MineIs, ToldIs, StandsOnOneRing};
ghost use Rattle.chord_world.specs.Linking.{LinksAre};

use crate::deed::NodeDeed;
use crate::fate::Fate;
use crate::outcome::Outcome;
use crate::refusal::Refusal;
use crate::sent::Sent;
use crate::step::Step;
use chord_caller::CallerCore;
use chord_history::History;
use chord_links::Links;
use chord_map::Done;
use chord_node::{Message, Node};
use chord_store::EntryStore;
use std::alloc::Global;
use std::marker::Model;

/// All nodes and callers, every message ever sent, and the executed calls in order. A message may
/// be delivered at any time, in any order and again; a lost message is one that is never delivered.
#[derive(Drop)]
pub struct World<S: EntryStore> {
    pub(crate) alloc: Global,
    pub(crate) r: usize,
    pub(crate) nodes: Vec<Node<S>>,
    pub(crate) callers: Vec<CallerCore>,
    pub(crate) sent: Vec<Sent>,
    pub(crate) fates: Vec<Fate>,
    pub(crate) history: History,
}

impl<S: EntryStore> Model for World<S> {
    ghost use Rattle.chord_world.specs.State.{WorldState, IsWorld};

    ghost Value = { WorldState };

    ghost use Rattle.chord_world.specs.View.{state_of};

    ghost view = { λ a. state_of a };

    ghost invariant = { λ a. IsWorld (state_of a) };
}

impl<S: EntryStore> World<S> {
    /// A world in which nothing has happened, whose nodes list at most `r` successors.
    pub fn new(alloc: Global, r: usize) -> World<S>
        requires low { 2 ≤ r }
        requires high { r ≤ 16 }
        ensures { result ≡ new_world r }
    {
        World {
            alloc,
            r,
            nodes: Vec::new(alloc),
            callers: Vec::new(alloc),
            sent: Vec::new(alloc),
            fates: Vec::new(alloc),
            history: History::new(alloc),
        }
    }

    /// What holds of every world: it is reachable, so its executed calls are one history of one
    /// map, each call at most once, in the order that its callers had seen. It does nothing.
    pub fn headline(&self)
        ensures reached { ∥ Reached self.now.world ∥₁ }
        ensures headline { Headline self.now.world }
    {
        let _ = &self.history;
        chord_model::laws::headline();
    }

    /// The executed calls, in order.
    pub fn history(&self) -> &[Done]
        ensures value { result.now ≡ self.now.world.history }
        ensures headline { Headline self.now.world }
    {
        chord_model::laws::headline();
        self.history.calls()
    }

    /// The message that was sent under this number.
    pub fn message(&self, number: u64) -> Option<&Message>
        ensures { option_copied result ≡ slice_get self.now.world.sent number }
    {
        match self.sent.get(number as usize) {
            Some(sent) => Some(&sent.message),
            None => None,
        }
    }

    /// The calls of a caller whose replies it took, in the order taken.
    pub fn mine(&self, caller: u64) -> Option<&[Done]>
        ensures { MineIs caller self.now result }
    {
        if caller >= self.callers.len() as u64 {
            return None;
        }
        Some(self.callers[caller as usize].mine())
    }

    /// The calls that notes told a caller of, in that order.
    pub fn told(&self, caller: u64) -> Option<&[Done]>
        ensures { ToldIs caller self.now result }
    {
        if caller >= self.callers.len() as u64 {
            return None;
        }
        Some(self.callers[caller as usize].told())
    }

    /// What a node knows of other nodes.
    pub fn links(&self, node: u64) -> Option<&Links>
        ensures { LinksAre node self.now result }
    {
        if node >= self.nodes.len() as u64 {
            return None;
        }
        Some(self.nodes[node as usize].links())
    }

    /// Once there is a node: each member's list has a live entry, there is a principal, and the
    /// principals are on one ring. It does nothing.
    pub fn stands_on_one_ring(&self)
        ensures { StandsOnOneRing self.now }
    {
        let _ = &self.nodes;
    }

    /// Does one step. A refused step changes neither the world nor the stores.
    pub fn step(&mut self, stores: &mut Vec<S>, step: &Step) -> Result<Outcome, Refusal>
        requires { All (λ s. S.content s ≡ []) stores.old.items }
        ensures answer { StepIs step.now (map S.limit stores.old.items) self.old result self.new }
        ensures step { AdvancesBy step.now self.old result self.new }
        ensures ring { KeepsRing self.old self.new }
        ensures stores { StoresLeft step.now result stores.old.items stores.new.items }
        ensures vacant { All (λ s. S.content s ≡ []) stores.new.items }
    {
        match step {
            Step::Create { id } => self.create(stores, *id),
            Step::Join { id, behind } => self.join(stores, *id, *behind),
            Step::OpenCaller { window } => self.open_caller(*window),
            Step::Submit {
                caller,
                via,
                request,
            } => self.submit(*caller, *via, request),
            Step::Resend {
                caller,
                via,
                number,
            } => self.resend(*caller, *via, *number),
            Step::GiveUp { caller, number } => self.give_up(*caller, *number),
            Step::Deliver { message } => self.deliver(*message),
            Step::Show { caller } => self.show(*caller),
            Step::Meet { caller, message } => self.meet(*caller, *message),
            Step::Cut { node, place, at } => {
                let (place, at) = (*place, *at);
                self.act(*node, NodeDeed::Cut { place, at })
            }
            Step::Merge {
                node,
                place,
                behind,
            } => {
                let (place, behind) = (*place, *behind);
                self.act(*node, NodeDeed::Merge { place, behind })
            }
            Step::Give { node, place, to } => self.give(*node, *place, *to),
            Step::SendPart {
                node,
                to,
                number,
                part,
            } => self.send_part(*node, *to, *number, *part),
            Step::Leave { node } => self.act(*node, NodeDeed::Leave),
            Step::Retire { node } => self.retire(*node),
            Step::Stabilise { node, head } => self.stabilise(*node, *head),
            Step::Candidate { node, peer } => self.take_candidate(*node, *peer),
            Step::DropDead { node } => self.drop_dead(*node),
            Step::Rectify { node, notifier } => self.rectify(*node, *notifier),
            Step::Crash { node } => self.crash(*node),
            Step::Rescue { node } => self.rescue(*node),
            Step::Finger { node, finger, to } => self.finger(*node, *finger, *to),
        }
    }
}
