//! The seats of nodes.
ghost use Rattle.std.specs.Prelude.{◌≡◌, ◌++◌, [], ◌∷◌, Option, Some, false};
ghost use Rattle.chord_model.specs.declared.message.Message.{Message as Content};
ghost use Rattle.chord_table.specs.Scenes.{place_of};
ghost use Rattle.chord_table.specs.Shown.{NodeShown};
ghost use Rattle.chord_table.specs.Views.{MayAct, MayRelink};

use crate::actor_seat::ActorSeat;
use crate::envelope::Envelope;
use crate::laws::each_scene_holds;
use crate::naming::Naming;
use crate::shared::Shared;
use chord_node::{Message, Node};
use chord_store::EntryStore;
use std::marker::{Brand, Model};

/// A node's seat. Contracts see the node, whether it crashed, and the messages that came to it. The
/// ring has nothing of a node that crashed, whatever it does: its place is empty from then on.
#[derive(Drop)]
pub struct NodeSeat<J: Naming> {
    pub(crate) seat: ActorSeat<J>,
}

impl<J: Naming> Model for NodeSeat<J> {
    ghost use Rattle.std.specs.Prelude.{◌≡◌};
    ghost use Rattle.chord_table.specs.Seen.{OfNode};
    ghost use Rattle.chord_table.specs.Views.{NodeSight, as_node, crashed_in, node_in};

    ghost Value = { NodeSight };

    ghost view = { λ a. as_node a.seat };

    ghost invariant = { λ a. a.seat.actor ≡ OfNode (node_in a.seat.actor) (crashed_in a.seat.actor) };
}

impl<J: Naming> NodeSeat<J> {
    /// Records an event of the node that sends nothing, or whose message is lost. It leaves the
    /// node's place in the ring as it is.
    pub fn local<S: EntryStore>(&mut self, table: &Shared<J>, after: &Node<S>)
        requires event { (sent : Option Content) × MayAct self.old.node self.old.messages after.now sent }
        requires place { place_of self.old.crashed after.now ≡ place_of self.old.crashed self.old.node }
        ensures { self.new ≡ record self.old { node = after.now } }
    {
        self.seat.local::<Brand, Node<S>>(table, after);
    }

    /// Records that the node took other links, which is a step of the ring, while the caller has
    /// another node's seat too.
    pub fn relink<S: EntryStore>(
        &mut self,
        table: &Shared<J>,
        other: &mut NodeSeat<J>,
        after: &Node<S>,
    )
        requires live { self.old.crashed ≡ false }
        requires step { MayRelink self.old.node other.old.node other.old.crashed after.now }
        ensures mine { self.new ≡ record self.old { node = after.now } }
        ensures other { other.new ≡ other.old }
    {
        self.seat
            .relink::<Brand, Node<S>>(table, &mut other.seat, after);
    }

    /// The same with no other seat.
    pub fn relink_alone<S: EntryStore>(&mut self, table: &Shared<J>, after: &Node<S>)
        requires live { self.old.crashed ≡ false }
        requires step { MayRelink self.old.node self.old.node false after.now }
        ensures { self.new ≡ record self.old { node = after.now } }
    {
        self.seat.relink_alone::<Brand, Node<S>>(table, after);
    }

    /// Records an event of the node, and sends its message.
    pub fn send<S: EntryStore>(
        &mut self,
        table: &Shared<J>,
        after: &Node<S>,
        message: Message,
    ) -> Envelope<J>
        requires event { MayAct self.old.node self.old.messages after.now (Some message) }
        ensures seat { self.new ≡ record self.old { node = after.now } }
        ensures envelope { result ≡ message }
    {
        self.seat.send::<Brand, Node<S>>(table, after, message)
    }

    /// Takes in a message for the node.
    pub fn receive(&mut self, table: &Shared<J>, envelope: Envelope<J>) -> Message
        ensures message { result ≡ envelope }
        ensures seat { self.new ≡ record self.old {
          messages = self.old.messages ++ envelope ∷ [];
        } }
    {
        self.seat.receive(table, envelope)
    }

    /// Proves that what the seat shows is true of some scene that steps lead to: the theorem holds
    /// of its world, and its members are one ring while the ring allows each crash.
    pub fn look(&mut self, table: &Shared<J>)
        ensures same { self.new ≡ self.old }
        ensures shown { NodeShown self.old }
    {
        each_scene_holds();
        self.seat.look(table);
    }
}
