//! All nodes and callers in one process, taking any steps in any order: a deterministic simulator.
//!
//! A [`World`] does a [`Step`] by `world.step(step)`, and answers its outcome or why it refuses.
//! Messages stay in it until a step delivers them, in any order and as often as one likes. [`run`]
//! does a list of steps, and its contract is the theorem: the replies are those of one map of sets.
#![tactic(auto)]

mod deed;
mod fate;
mod holder;
mod members;
mod outcome;
mod refusal;
mod runs;
mod sent;
mod step;
mod steps;
mod world;

pub use outcome::Outcome;
pub use refusal::{Refusal, StepFault};
pub use runs::{StepResult, run};
pub use step::Step;
pub use world::World;
