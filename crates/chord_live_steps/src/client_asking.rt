//! A core that hands each reply out and stores none.
ghost use Rattle.std.specs.Prelude.{refl};
ghost use Rattle.chord_caller.specs.Client.{IsCoreOf};
ghost use Rattle.chord_live_steps.specs.Ending.{AwaitIs};
ghost use Rattle.chord_live_steps.specs.Laws.{await_again, await_still, await_numbered};

use crate::asking_core::AskingCore;
use chord_caller::{Ask, ClientCore, ResendFault, SubmitFault, TakeOutcome, Told};
use chord_live_types::WaitFault;
use chord_map::{Reply, Request};
use chord_table::{CallerSeat, Naming, Shared};

/// What the seat shows takes no memory: it is data of the proof alone. A reply that nobody waits
/// for is dropped. Its request stays pending, and when it is sent again its holder answers with the
/// kept reply.
impl AskingCore for ClientCore {
    ghost is_core_of = { IsCoreOf };

    ghost ends = { AwaitIs };

    fn number(&self) -> u64 {
        self.number()
    }

    fn floor(&self) -> u64 {
        self.floor()
    }

    fn is_pending(&self, number: u64) -> bool {
        self.is_pending(number)
    }

    fn pending(&self) -> Option<u64> {
        self.pending()
    }

    fn refusal(&self, request: &Request) -> Option<SubmitFault> {
        self.refusal(request)
    }

    fn submit(&mut self, request: Request) -> Result<Ask, SubmitFault> {
        self.submit(request)
    }

    fn resend(&self, number: u64) -> Result<Ask, ResendFault> {
        self.resend(number)
    }

    fn give_up(&mut self, number: u64) {
        self.give_up(number);
    }

    fn take<J: Naming>(
        &mut self,
        seat: &mut CallerSeat<J>,
        table: &Shared<J>,
        told: Told,
        number: u64,
    ) -> Result<Reply, WaitFault> {
        if told.number != number {
            drop(told);
            return Err(WaitFault::NoAnswer);
        }
        seat.hear(table, &told);
        match self.take(told) {
            TakeOutcome::Fresh(reply) => Ok(reply),
            TakeOutcome::Known => Err(WaitFault::NoAnswer),
            TakeOutcome::Foreign => Err(WaitFault::NoAnswer),
        }
    }

    ghost nothing = { λ number caller fault. refl };

    ghost again = { await_again };

    ghost still = { await_still };

    ghost numbered = { await_numbered };
}
