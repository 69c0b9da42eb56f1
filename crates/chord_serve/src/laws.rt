//! What holds of all sessions. These functions have no code; their contracts are the laws.
ghost use Rattle.std.specs.Prelude.{◌≡◌, ◌+◌, ◌++◌, ℕ, List, [], length, Option, None, false};
ghost use Rattle.std.specs.List.{AllByRecursion};
ghost use Rattle.chord_wire.specs.declared.request.WireRequest.{WireRequest};
ghost use Rattle.chord_wire.specs.Spelling.{IsWireRequest};
ghost use Rattle.chord_wire.specs.Streams.{HasNoNext};
ghost use Rattle.chord_session.specs.Session.{first_state, last_number};
ghost use Rattle.chord_session.specs.SessionState.{SessionState};
ghost use Rattle.chord_serve.specs.declared.asker.Asked.{Asked};
ghost use Rattle.chord_serve.specs.Question.{Question};
ghost use Rattle.chord_serve.specs.Served.{Dealt, IsParted};
ghost use Rattle.chord_serve.specs.Framing.{FrameStands};
ghost use Rattle.chord_serve.specs.Parting.{parted_as};
ghost use Rattle.chord_serve.specs.declared.link.stage.Stage.{Stage};
ghost use Rattle.chord_serve.specs.declared.link.stage.Stage.TheVariants.{Over};
ghost use Rattle.chord_serve.specs.declared.served.Served.{Served as ServedOf};
ghost use Rattle.chord_serve.specs.declared.served.Served.TheVariants.{Write};
ghost use Rattle.chord_serve.specs.Lasting.{InARow, AreOneSession};
ghost use Rattle.chord_serve.specs.Output.{questions, state_after, asked_anew, answered_requests, AreAnswers, IsPaired};

use crate::asker::Asker;
use crate::client_session::ClientSession;
use crate::frame_protocol::FrameProtocol;
use chord_wire::laws::one_reading;

/// Connections in a row are one session: the requests of all of them together are asked once each,
/// in order, and answered as if they had come over one connection.
pub fn connections_are_one_session<A: Asker>()
    ensures { (first : ClientSession A) (inputs outputs : List (List ℕ)) (last : ClientSession A) → InARow A.answers first inputs outputs last → AreOneSession A.answers first inputs outputs last }
{}

/// Each number is asked anew once: as many requests are asked anew as there are new numbers, and
/// the asker took in these, in order. By [`connections_are_one_session`] that holds over all
/// connections of a session together.
pub fn numbers_are_asked_once<A: Asker>()
    ensures numbers { (a b : A) (s : SessionState) (requests : List WireRequest) (given : List Asked) → AllByRecursion IsWireRequest requests → AreAnswers A.answers a (questions s requests given) given b
        → last_number s + length (asked_anew (questions s requests given)) ≡ last_number (state_after s requests given) }
    ensures asked { (a b : A) (asks : List Question) (given : List Asked) → AreAnswers A.answers a asks given b → A.asked b ≡ A.asked a ++ asked_anew asks }
{}

/// Each reply of a session is of the kind of its request, also after a retry.
pub fn replies_are_of_their_kind<A: Asker>()
    ensures { (a b : A) (requests : List WireRequest) (given : List Asked) → A.asked a ≡ [] → AllByRecursion IsWireRequest requests
        → AreAnswers A.answers a (questions first_state requests given) given b → AllByRecursion IsPaired (answered_requests first_state requests given) }
{}

/// The output of a session for all whole requests of its input depends on the input and the answers
/// alone, however the input was cut.
pub fn one_output<A: Asker>()
    ensures { (a b after after' : A) (input output output' rest rest' : List ℕ) (v v' : Option ℕ) (s s' : SessionState)
        → (one : Dealt A.answers None first_state a input output rest v s after) → (other : Dealt A.answers None first_state b input output' rest' v' s' after')
        → HasNoNext rest → HasNoNext rest' → one.given ≡ other.given → output ≡ output' }
{
    one_reading();
}

/// A link that speaks in frames serves its connection, whatever drives it, in whichever thread. At
/// each end of it this is what it read and answered, and what is left of its session. Where it is
/// let go before all is written, be it in the middle of a request, it wrote a prefix of that.
pub fn links_are_served<A: Asker>()
    ensures ended { (first last : FrameProtocol A) (end : ServedOf) (input output : List ℕ) → first.is_over ≡ false
        → FrameStands A.answers (Over end) first input output last
        → IsParted A.answers first.is_opened end first.client.version first.client.numbers first.client.asker
        (first.frames ++ input) output (parted_as last.is_over last.client) }
    ensures lost { (first last : FrameProtocol A) (stage : Stage) (input sent due : List ℕ) → first.is_over ≡ false
        → FrameStands A.answers stage first input (sent ++ due) last
        → IsParted A.answers first.is_opened Write first.client.version first.client.numbers first.client.asker
        (first.frames ++ input) sent (parted_as last.is_over last.client) }
{}
