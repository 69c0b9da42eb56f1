//! A core that stores all replies that it takes.
ghost use Rattle.std.specs.Prelude.{◌≡◌, Contains};
ghost use Rattle.chord_caller.specs.Answers.{TakeIs};
ghost use Rattle.chord_live_steps.specs.Ending.{WaitIs};
ghost use Rattle.chord_live_steps.specs.Laws.{wait_nothing, wait_again, wait_still, wait_numbered};
ghost use Rattle.chord_model.specs.declared.message.Message.TheVariants.{Told as ToldMessage};

use crate::asking_core::AskingCore;
use chord_caller::{Ask, CallerCore, Heard, ResendFault, SubmitFault, TakeFault, Told};
use chord_live_types::WaitFault;
use chord_map::{Reply, Request};
use chord_table::{CallerSeat, Naming, Shared};

/// Takes a reply that came, and records that at the seat.
fn take_told<J: Naming>(
    core: &mut CallerCore,
    seat: &mut CallerSeat<J>,
    table: &Shared<J>,
    told: Told,
) -> Result<Heard, TakeFault>
    requires core { core.old ≡ seat.old.caller }
    requires came { Contains seat.old.messages (ToldMessage told) }
    ensures core { core.new ≡ seat.new.caller }
    ensures messages { seat.new.messages ≡ seat.old.messages }
    ensures answer { TakeIs told seat.old.caller result seat.new.caller }
{
    match core.take(told) {
        Ok(taken) => {
            seat.local(table, core);
            Ok(taken)
        }
        Err(fault) => Err(fault),
    }
}

/// Any reply to a pending request is taken, also one that nobody waits for now. The reply to be
/// handed out is copied first, so that nothing is taken that cannot be handed out.
impl AskingCore for CallerCore {
    ghost is_core_of = { λ core caller. core ≡ caller };

    ghost ends = { WaitIs };

    fn number(&self) -> u64 {
        self.number()
    }

    fn floor(&self) -> u64 {
        self.floor()
    }

    fn is_pending(&self, number: u64) -> bool {
        self.is_pending(number)
    }

    fn pending(&self) -> Option<u64> {
        self.pending()
    }

    fn refusal(&self, request: &Request) -> Option<SubmitFault> {
        self.refusal(request)
    }

    fn submit(&mut self, request: Request) -> Result<Ask, SubmitFault> {
        self.submit(request)
    }

    fn resend(&self, number: u64) -> Result<Ask, ResendFault> {
        self.resend(number)
    }

    fn give_up(&mut self, number: u64) {
        self.give_up(number);
    }

    fn take<J: Naming>(
        &mut self,
        seat: &mut CallerSeat<J>,
        table: &Shared<J>,
        told: Told,
        number: u64,
    ) -> Result<Reply, WaitFault> {
        if told.number != number {
            let _ = take_told(self, seat, table, told).is_ok();
            return Err(WaitFault::NoAnswer);
        }
        let Ok(reply) = told.reply.try_copy() else {
            drop(told);
            return Err(WaitFault::Memory);
        };
        match take_told(self, seat, table, told) {
            Ok(Heard::Fresh) => Ok(reply),
            Ok(Heard::Known) => {
                drop(reply);
                Err(WaitFault::NoAnswer)
            }
            Err(TakeFault::Foreign) => {
                drop(reply);
                Err(WaitFault::NoAnswer)
            }
            Err(TakeFault::Memory) => {
                drop(reply);
                Err(WaitFault::Memory)
            }
        }
    }

    ghost nothing = { wait_nothing };

    ghost again = { wait_again };

    ghost still = { wait_still };

    ghost numbered = { wait_numbered };
}
