//! What holds of a node in every reachable world. The
//! function does nothing: its contract is the law.
ghost use Rattle.std.specs.Prelude.{◌≡◌, Some, Contains, Ok};
ghost use Rattle.chord_handover.specs.declared.ticket.Ticket.{Ticket};
ghost use Rattle.chord_handover.specs.Handover.{Part};
ghost use Rattle.chord_model.specs.declared.message.Message.TheVariants.{Part as PartMessage, Declined as DeclinedMessage};
ghost use Rattle.chord_model.specs.Node.{Node};
ghost use Rattle.chord_model.specs.World.{World, Reached, node_at};
ghost use Rattle.chord_node.specs.declared.handovers.part_answer.Back.TheVariants as back;
ghost use Rattle.chord_node.specs.declared.handovers.part_answer.PartAnswer.TheVariants as given;
ghost use Rattle.chord_node.specs.Received.{PartIs, BackIs};

/// In a reachable world neither an arriving nor a declined handover overlaps a segment that the
/// node holds, so no answer is Clash.
pub fn no_delivery_clashes()
    ensures taken { (world : World) (part : Part) (node new : Node) → ∥ Reached world ∥₁ → Contains world.sent (PartMessage part)
        → node_at part.to world.nodes ≡ Some node → ¬ PartIs part node (Ok given.Clash) new }
    ensures taken_back { (world : World) (ticket : Ticket) (node new : Node) → ∥ Reached world ∥₁
        → Contains world.sent (DeclinedMessage ticket) → node_at ticket.from world.nodes ≡ Some node
        → ¬ BackIs ticket node (Ok back.Clash) new }
{}
