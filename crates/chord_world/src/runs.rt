//! Lists of steps.
ghost use Rattle.std.specs.Prelude.{◌≡◌, [], map, IfOk, OnErr};
ghost use Rattle.std.specs.List.{All};
ghost use Rattle.chord_model.specs.Headline.{Headline, SeenFirst};
ghost use Rattle.chord_world.specs.Runs.{Ran, result_of, StandsOnOneRing};

use crate::outcome::Outcome;
use crate::refusal::Refusal;
use crate::step::Step;
use crate::world::World;
use chord_store::EntryStore;
use std::alloc::{AllocError, Global};

/// The answer to one step of a run.
#[derive(Clone, Copy, Debug, PartialEq, Eq)]
pub enum StepResult {
    Did(Outcome),
    Refused(Refusal),
}

/// The result of a step as an answer.
fn answer_of(did: Result<Outcome, Refusal>) -> StepResult
    ensures { result_of result ≡ did }
{
    match did {
        Ok(outcome) => StepResult::Did(outcome),
        Err(refusal) => StepResult::Refused(refusal),
    }
}

/// Does the steps in order, and goes on after a refused one.
/// Memory for the answers is reserved before the first step.
pub fn run<S: EntryStore>(
    alloc: Global,
    world: &mut World<S>,
    stores: &mut Vec<S>,
    steps: &[Step],
) -> Result<Vec<StepResult>, AllocError>
    requires { All (λ s. S.content s ≡ []) stores.old.items }
    ensures answers { IfOk result (λ answers. Ran (map S.limit stores.old.items) world.old steps.now answers.items (map S.limit stores.new.items) world.new) }
    ensures err { OnErr result (world.new ≡ world.old) }
    ensures stores { OnErr result (stores.new.items ≡ stores.old.items) }
    ensures vacant { All (λ s. S.content s ≡ []) stores.new.items }
    ensures headline { Headline world.new.world }
    ensures seen { SeenFirst world.old.world world.new.world }
    ensures ring { StandsOnOneRing world.new }
{
    world.headline();
    world.stands_on_one_ring();
    chord_model::laws::seen_first();
    let mut answers = Vec::with_capacity(alloc, steps.len())?;
    for step in steps {
        let result = world.step(stores, step);
        answers.push_reserved(answer_of(result));
    }
    world.headline();
    world.stands_on_one_ring();
    Ok(answers)
}
