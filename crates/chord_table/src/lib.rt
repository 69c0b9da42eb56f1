//! What running threads know of one world of nodes and callers.
//!
//! One table is shared by all threads. Each node and each caller has a seat of it ([`NodeSeat`],
//! [`CallerSeat`]), and each message under way is a [`Envelope`] with a seat of its own. What a
//! seat shows is data that only proofs see: the actor's state, and messages that were sent. The
//! rule of the table is that at every moment its seats show a scene, a world with its ring, that
//! one list of steps leads to. So the theorem over worlds holds of what threads see, and the ring
//! of the nodes is one ring.
//!
//! A [`Registrar`] admits nodes and callers. A node that answered a call says so to its seat, which
//! gives the reply as an envelope: `let envelope = seat.send(&table, &node, Message::Told(told));`.
//! The caller's seat takes it in with `seat.receive(&table, envelope)`. The prover refuses a step
//! that is no event of the core from the state that the seat shows.
//!
//! A step of the ring changes a node's links while the caller holds the other node's seat too
//! (`relink`). A crash and a retirement need the seats of all nodes: the registrar's takes them in,
//! and gives them back.
//!
//! Each look proves something of one world; two looks need not be of the same run. To prove
//! something of several callers in one world, take a [`Witness`] of each by `seat.witness(&table)`,
//! on any thread, join them, and let the last one look.
#![tactic(auto)]

mod actor_seat;
mod assembly;
mod caller_seat;
mod envelope;
mod event;
mod law;
mod laws;
mod moves;
mod naming;
mod node_seat;
mod registrar;
mod shared;
mod standing_node;
mod table_parts;
mod view;
mod witness;

pub use caller_seat::CallerSeat;
pub use envelope::Envelope;
pub use laws::principals_stay;
pub use naming::Naming;
pub use node_seat::NodeSeat;
pub use registrar::Registrar;
pub use shared::Shared;
pub use standing_node::StandingNode;
pub use table_parts::TableParts;
pub use witness::Witness;
