//! What holds of every reachable world. These functions
//! do nothing: their contracts are the theorem.
ghost use Rattle.std.specs.Prelude.{◌≡◌, ◌≢◌, ℕ, ◌+◌, ◌^◌, ◌<◌, Some, [], All, Contains};
ghost use Rattle.chord_caller.specs.Caller.{Caller};
ghost use Rattle.chord_handover.specs.declared.gather.Gather.TheVariants.{Unfit};
ghost use Rattle.chord_handover.specs.declared.ticket.Ticket.{Ticket};
ghost use Rattle.chord_handover.specs.Gather.{GatherIs};
ghost use Rattle.chord_handover.specs.Handover.{Handover, Part, IsWhole, gathered_parts, Item, item_at};
ghost use Rattle.chord_model.specs.Headline.{MeetsNone, AllApart, Headline, OneHistory, IsNextFor, KeepNoneTwice, SeenFirst};
ghost use Rattle.chord_model.specs.declared.message.Message.TheVariants.{Part as PartMessage, Declined as DeclinedMessage};
ghost use Rattle.chord_model.specs.Node.{Node};
ghost use Rattle.chord_model.specs.Uses.{Rule, rules_of, parts_taken_in_run};
ghost use Rattle.chord_model.specs.World.{World, Run, Reached, HasOneHolder, node_at};
ghost use Rattle.chord_model.specs.declared.phase.Phase.TheVariants.{Gone};
ghost use Rattle.chord_segment.specs.Marks.{mark_of};

/// In every reachable world: one history of one map; one holder of each identifier once there is a
/// node; and each node's segments do not overlap or keep a call twice, and contain its entries.
pub fn headline()
    ensures { (world : World) → ∥ Reached world ∥₁ → Headline world }
{}

/// In every reachable world with a node, each identifier has one holder.
pub fn one_holder()
    ensures { (world : World) (x : ℕ) → ∥ Reached world ∥₁ → world.nodes ≢ [] → x < 2 ^ 128 → HasOneHolder x world.nodes }
{}

/// No handover that a node takes, or takes back, overlaps a
/// span that the node holds, and no two of those overlap.
pub fn no_clash()
    ensures taken { (world : World) (part : Part) (handover : Handover) (node : Node) → ∥ Reached world ∥₁ → Contains world.sent (PartMessage part)
        → IsWhole (gathered_parts part node.buffered) handover
        → node_at handover.to world.nodes ≡ Some node → node.phase ≢ Gone → handover.number ≡ mark_of handover.from node.taken + 1
        → MeetsNone handover.segment.span node.held }
    ensures taken_back { (world : World) (ticket : Ticket) (node : Node) (item : Item) → ∥ Reached world ∥₁
        → Contains world.sent (DeclinedMessage ticket) → node_at ticket.from world.nodes ≡ Some node
        → item_at ticket.to ticket.number node.outbox ≡ Some item → MeetsNone item.segment.span node.held }
    ensures held { (world : World) (number : ℕ) (node : Node) → ∥ Reached world ∥₁ → node_at number world.nodes ≡ Some node → AllApart node.held }
{}

/// Each sent part fits into its sender's next handover: with the parts buffered there it makes a
/// part of one payload, or all of it.
pub fn parts_fit()
    ensures { (world : World) (part : Part) (node : Node) → ∥ Reached world ∥₁ → Contains world.sent (PartMessage part)
        → node_at part.to world.nodes ≡ Some node → IsNextFor node part → ¬ GatherIs part node.buffered Unfit }
{}

/// In every reachable world: the executed calls form one history of one map, each call at most
/// once, in the order that the callers had seen; every reply that a caller took is in it; and each
/// holder of an identifier has the pairs that the history leaves there.
pub fn one_history()
    ensures { (world : World) → ∥ Reached world ∥₁ → OneHistory world }
{}

/// No call is kept in two segments of a node, so a join never finds a call twice.
pub fn none_twice()
    ensures { (world : World) (number : ℕ) (node : Node) → ∥ Reached world ∥₁ → node_at number world.nodes ≡ Some node → KeepNoneTwice node.held }
{}

/// Some run executes a call whose reply its caller takes.
pub fn some_run()
    ensures { (world : World) × Reached world × (world.history ≢ []) × ((caller : Caller) × Contains world.callers caller × (caller.mine ≢ [])) }
{}

/// Some run uses every rule: one handover is taken,
/// another is declined and taken back, and a node is gone.
pub fn every_rule()
    ensures { (world : World) × (run : Reached world) × ((rule : Rule) → Contains (rules_of run) rule) }
{}

/// Some run takes a handover of two parts, and ends with every outbox empty.
pub fn two_parts()
    ensures { (world : World) × (run : Reached world) × Contains (parts_taken_in_run run) 2 × All (λ (node : Node). node.outbox ≡ []) world.nodes }
{}

/// What a caller knew at some time comes in the history before each call that it submitted later.
pub fn seen_first()
    ensures { (earlier later : World) → ∥ Reached earlier ∥₁ → ∥ Run earlier later ∥₁ → SeenFirst earlier later }
{}
