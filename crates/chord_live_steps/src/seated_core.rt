//! A core with the seat of its caller.
ghost use Rattle.std.specs.Prelude.{◌≡◌, ◌≢◌, ◌↔◌, ◌++◌, [], ◌∷◌, Contains, IfOk, IfErr, IfSome, OnErr, Ok, Err, None, true, is_some};
ghost use Rattle.chord_caller.specs.Answers.{PendingIs, RefusalIs, ResendIs, SubmitIs, is_pending};
ghost use Rattle.chord_caller.specs.Caller.{floor_of, fresh_for, next_number};
ghost use Rattle.chord_caller.specs.declared.told.Told.{Told as ToldOf};
ghost use Rattle.chord_caller.specs.declared.ask.Ask.{Ask as AskOf};
ghost use Rattle.chord_live_steps.specs.Begun.{IsCallOf, Submitted};
ghost use Rattle.chord_live_steps.specs.Asking.{GaveUpSome, GiveUpIs};
ghost use Rattle.chord_live_steps.specs.Ending.{Ended};
ghost use Rattle.chord_live_types.specs.declared.caller.WaitFault.TheVariants.{Full as WaitFull, Memory as WaitMemory, NoAnswer as WaitNoAnswer};
ghost use Rattle.chord_model.specs.declared.message.Message.TheVariants.{Ask as AskMessage, Full as FullMessage, Told as ToldMessage};
ghost use Rattle.chord_table.specs.Shown.{CallerShown};

use crate::asking_core::AskingCore;
use chord_caller::{ResendFault, SubmitFault};
use chord_live_types::WaitFault;
use chord_map::{Reply, Request};
use chord_node::Message;
use chord_table::{CallerSeat, Envelope, Naming, Shared, Witness};
use std::alloc::AllocError;
use std::marker::Model;

/// A core, and the seat of its caller. Contracts see what the seat shows.
#[derive(Drop)]
pub struct SeatedCore<J: Naming, C: AskingCore> {
    pub(crate) core: C,
    pub(crate) seat: CallerSeat<J>,
}

impl<J: Naming, C: AskingCore> Model for SeatedCore<J, C> {
    ghost use Rattle.chord_table.specs.Views.{CallerSight};

    ghost Value = { CallerSight };

    ghost view = { λ a. a.seat };

    ghost invariant = { λ a. C.is_core_of a.core a.seat.caller };
}

impl<J: Naming, C: AskingCore> SeatedCore<J, C> {
    /// A core with the seat that its caller was admitted with.
    pub fn new(core: C, seat: CallerSeat<J>) -> SeatedCore<J, C>
        requires { C.is_core_of core seat.caller }
        ensures { result ≡ seat }
    {
        SeatedCore { core, seat }
    }

    /// The greatest number such that it and all below it are settled: taken or given up.
    pub fn floor(&self) -> u64
        ensures { result ≡ floor_of self.now.caller }
    {
        self.core.floor()
    }

    /// The least pending number.
    pub fn pending(&self) -> Option<u64>
        ensures { PendingIs self.now.caller result }
    {
        self.core.pending()
    }

    /// Whether the request of this number waits for its reply.
    pub fn is_pending(&self, number: u64) -> bool
        ensures { result ≡ is_pending number self.now.caller }
    {
        self.core.is_pending(number)
    }

    /// Why the request would be refused now, even with ample memory.
    pub fn refusal(&self, request: &Request) -> Option<SubmitFault>
        ensures { RefusalIs request.now self.now.caller result }
    {
        self.core.refusal(request)
    }

    /// Submits a request, and gives its number and its envelope.
    pub fn submit(
        &mut self,
        table: &Shared<J>,
        request: Request,
    ) -> Result<(u64, Envelope<J>), SubmitFault>
        ensures number { IfOk result (λ sent. sent.0 ≡ next_number self.old.caller) }
        ensures ok { IfOk result (λ sent. Submitted request self.old self.new) }
        ensures envelope { IfOk result (λ sent. (ask : AskOf) × SubmitIs request self.old.caller (Ok ask) self.new.caller × (sent.1 ≡ AskMessage ask)) }
        ensures call { IfOk result (λ sent. IsCallOf self.new.caller sent.0 sent.1) }
        ensures err { IfErr result (λ fault. SubmitIs request self.old.caller (Err fault) self.new.caller) }
        ensures same { OnErr result (self.new ≡ self.old) }
    {
        let ask = match self.core.submit(request) {
            Ok(ask) => ask,
            Err(fault) => return Err(fault),
        };
        let number = ask.number;
        let envelope = self.seat.submit(table, ask);
        Ok((number, envelope))
    }

    /// Sends a pending request again.
    pub fn resend(&mut self, table: &Shared<J>, number: u64) -> Result<Envelope<J>, AllocError>
        requires { is_pending number self.old.caller ≡ true }
        ensures same { self.new ≡ self.old }
        ensures envelope { IfOk result (λ sent. (ask : AskOf) × ResendIs number self.old.caller (Ok ask) × (sent ≡ AskMessage ask)) }
        ensures call { IfOk result (IsCallOf self.new.caller number) }
    {
        let ask = match self.core.resend(number) {
            Ok(ask) => ask,
            Err(ResendFault::Idle) => unreachable!(),
            Err(ResendFault::Memory) => return Err(AllocError),
        };
        Ok(self.seat.resend(table, ask))
    }

    /// Gives the request of this number up, and tells whether it was pending: it is then settled
    /// without a reply, and a reply to it that comes later is not taken. What was sent of it may
    /// have acted, or may still act, once.
    pub fn give_up(&mut self, table: &Shared<J>, number: u64) -> bool
        ensures { GiveUpIs number self.old result self.new }
    {
        if !self.core.is_pending(number) {
            return false;
        }
        self.core.give_up(number);
        self.seat.give_up(table, number);
        true
    }

    /// Gives up all requests that are pending.
    pub fn give_up_all(&mut self, table: &Shared<J>)
        ensures idle { PendingIs self.new.caller None }
        ensures given { GaveUpSome self.old self.new }
    {
        while let Some(number) = self.pending() {
            let _ = self.give_up(table, number);
        }
    }

    /// The caller's seat. What the core stores is dropped.
    pub fn into_seat(self) -> CallerSeat<J>
        ensures { result ≡ self }
    {
        let SeatedCore { core, seat } = self;
        drop(core);
        seat
    }

    /// A witness of the caller as it is now.
    pub fn witness(&mut self, table: &Shared<J>) -> Witness<J>
        ensures same { self.new ≡ self.old }
        ensures noted { result ≡ self.old.caller ∷ [] }
    {
        self.seat.witness(table)
    }

    /// Proves that all that the caller took is in one legal history.
    pub fn look(&mut self, table: &Shared<J>)
        ensures same { self.new ≡ self.old }
        ensures shown { CallerShown self.old }
    {
        self.seat.look(table);
    }

    /// Takes a message in, as `take` does.
    fn receive(
        &mut self,
        table: &Shared<J>,
        envelope: Envelope<J>,
        number: u64,
    ) -> Result<Reply, WaitFault>
        ensures messages { self.new.messages ≡ self.old.messages ++ envelope ∷ [] }
        ensures change { C.ends number self.old.caller result self.new.caller }
        ensures full { (result ≡ Err WaitFull) ↔ (envelope ≡ FullMessage self.new.caller.number number) }
        ensures answered { (told : ToldOf) → envelope ≡ ToldMessage told → told.number ≡ number → result ≡ Err WaitNoAnswer → fresh_for told self.old.caller ≡ None }
        ensures memory { result ≡ Err WaitMemory → (told : ToldOf) × (envelope ≡ ToldMessage told) × (told.number ≡ number) }
    {
        let own = self.core.number();
        match self.seat.receive(table, envelope) {
            Message::Told(told) => self.core.take(&mut self.seat, table, told, number),
            Message::Full { caller, number: of } if caller == own && of == number => {
                Err(WaitFault::Full)
            }
            other => {
                drop(other);
                Err(WaitFault::NoAnswer)
            }
        }
    }

    /// Takes a message in, and says how it ends a wait for the reply to the request of this number:
    /// as NoAnswer if it says nothing of that request. A reply to it that fits is always taken.
    pub fn take(
        &mut self,
        table: &Shared<J>,
        envelope: Envelope<J>,
        number: u64,
    ) -> Result<Reply, WaitFault>
        ensures ended { Ended C.ends number self.old result self.new }
        ensures answered { (told : ToldOf) → envelope ≡ ToldMessage told → told.number ≡ number → result ≡ Err WaitNoAnswer → fresh_for told self.old.caller ≡ None }
        ensures memory { result ≡ Err WaitMemory → (told : ToldOf) × (envelope ≡ ToldMessage told) × (told.number ≡ number) }
    {
        self.receive(table, envelope, number)
    }
}
