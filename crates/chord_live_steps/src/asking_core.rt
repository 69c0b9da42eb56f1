//! What one who asks a ring knows of its own requests.
ghost use Rattle.std.specs.Prelude.{◌≡◌, ◌≢◌, ℕ, Contains, IfOk, Result, Ok, Err, None, true};
ghost use Rattle.chord_caller.specs.Answers.{is_pending, PendingIs, RefusalIs, ResendIs, SubmitIs};
ghost use Rattle.chord_caller.specs.Caller.{Caller, floor_of, fresh_for, with_given_up};
ghost use Rattle.chord_live_types.specs.declared.caller.WaitFault.{WaitFault};
ghost use Rattle.chord_live_types.specs.declared.caller.WaitFault.TheVariants.{Full as WaitFull, Memory as WaitMemory, NoAnswer as WaitNoAnswer};
ghost use Rattle.chord_map.specs.declared.reply.Reply.{Reply};
ghost use Rattle.chord_model.specs.declared.message.Message.TheVariants.{Told as ToldMessage};

use chord_caller::{Ask, ResendFault, SubmitFault, Told};
use chord_live_types::WaitFault;
use chord_map::{Reply, Request};
use chord_table::{CallerSeat, Naming, Shared};

/// The requests of one who asks a ring, and what it stores of their replies. The kinds are
/// `chord_caller`'s `ClientCore` and `CallerCore`.
pub trait AskingCore: Drop {
    /// The core has what it needs of this caller.
    ghost is_core_of: { Self → Caller → Type 0 };

    /// How a wait for the reply to the request of a number ends, and how the caller is then.
    ghost ends: { ℕ → Caller → Result Reply WaitFault → Caller → Type 0 };

    /// The caller's own number.
    fn number(&self) -> u64
        ensures { (caller : Caller) → is_core_of self.now caller → result ≡ caller.number };

    /// The greatest number such that it and all below it are settled: taken or given up.
    fn floor(&self) -> u64
        ensures { (caller : Caller) → is_core_of self.now caller → result ≡ floor_of caller };

    /// Whether the request of this number waits for its reply.
    fn is_pending(&self, number: u64) -> bool
        ensures { (caller : Caller) → is_core_of self.now caller → result ≡ is_pending number caller };

    /// The least pending number.
    fn pending(&self) -> Option<u64>
        ensures { (caller : Caller) → is_core_of self.now caller → PendingIs caller result };

    /// Why the request would be refused now, even with ample memory.
    fn refusal(&self, request: &Request) -> Option<SubmitFault>
        ensures { (caller : Caller) → is_core_of self.now caller → RefusalIs request.now caller result };

    /// Submits a request under the next number. A refused request is dropped.
    fn submit(&mut self, request: Request) -> Result<Ask, SubmitFault>
        ensures answer { (caller : Caller) → is_core_of self.old caller → (after : Caller) × is_core_of self.new after × SubmitIs request caller result after }
        ensures waits { (caller : Caller) → is_core_of self.new caller → IfOk result (λ ask. is_pending ask.number caller ≡ true) };

    /// Gives a pending request to be sent again, under its number and with the present floor.
    fn resend(&self, number: u64) -> Result<Ask, ResendFault>
        ensures { (caller : Caller) → is_core_of self.now caller → ResendIs number caller result };

    /// Gives a pending request up: it is settled without a reply, and none to it will be taken.
    fn give_up(&mut self, number: u64)
        requires { (caller : Caller) → is_core_of self.old caller → is_pending number caller ≡ true }
        ensures { (caller : Caller) → is_core_of self.old caller → is_core_of self.new (with_given_up number caller) };

    /// Takes a reply that came, and records that at the seat. Hands it out if the caller waits for
    /// the reply to the request of this number: then there is no answer only if the reply does not
    /// fit a pending request of the caller.
    fn take<J: Naming>(
        &mut self,
        seat: &mut CallerSeat<J>,
        table: &Shared<J>,
        told: Told,
        number: u64,
    ) -> Result<Reply, WaitFault>
        requires core { is_core_of self.old seat.old.caller }
        requires came { Contains seat.old.messages (ToldMessage told) }
        ensures core { is_core_of self.new seat.new.caller }
        ensures messages { seat.new.messages ≡ seat.old.messages }
        ensures ends { ends number seat.old.caller result seat.new.caller }
        ensures not_full { result ≢ Err WaitFull }
        ensures memory { result ≡ Err WaitMemory → told.number ≡ number }
        ensures answered { told.number ≡ number → result ≡ Err WaitNoAnswer → fresh_for told seat.old.caller ≡ None };

    /// A wait that changes nothing may end without a reply.
    ghost nothing: { (number : ℕ) (caller : Caller) (fault : WaitFault) → ends number caller (Err fault) caller };

    /// A wait without a reply and a second wait are one wait.
    ghost again: { (number : ℕ) (first middle last : Caller) (fault : WaitFault) (answer : Result Reply WaitFault) → ends number first (Err fault) middle → ends number middle answer last → ends number first answer last };

    /// The request is pending as before if no reply came.
    ghost still: { (number : ℕ) (old new : Caller) (fault : WaitFault) → ends number old (Err fault) new → is_pending number new ≡ is_pending number old };

    /// A caller keeps its number.
    ghost numbered: { (number : ℕ) (old new : Caller) (answer : Result Reply WaitFault) → ends number old answer new → new.number ≡ old.number };
}
