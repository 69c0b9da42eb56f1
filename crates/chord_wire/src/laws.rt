//! What holds of all streams. These functions have no code; their contracts are the laws.
ghost use Rattle.std.specs.Prelude.{◌≡◌, ◌≤◌, ◌↔◌, ◌++◌, List, [], ℕ, Ok, Err, Some, length};
ghost use Rattle.chord_wire.specs.declared.request.WireRequest.{WireRequest};
ghost use Rattle.chord_wire.specs.Reading.{IsDecided, with_more, next_request};
ghost use Rattle.chord_wire.specs.ReadingReplies.{next_answer};
ghost use Rattle.chord_wire.specs.declared.answer.Answer.{Answer};
ghost use Rattle.chord_wire.specs.declared.fault.WireFault.{WireFault};
ghost use Rattle.chord_wire.specs.FaultTable.{FaultOf, AnswerFaultOf};
ghost use Rattle.chord_wire.specs.Spelling.{IsBytes, IsWireRequest};
ghost use Rattle.chord_wire.specs.Streams.{Spells, SpellsAnswers, HasNoNext, HasNoNextAnswer, request_frame, answer_frame};
ghost use Rattle.chord_wire.specs.Replies.{AreValues, IsAnswer};
ghost use Rattle.chord_wire.specs.declared.session_frame.SessionFrame.{SessionFrame};
ghost use Rattle.chord_wire.specs.declared.session_answer.SessionAnswer.{SessionAnswer};
ghost use Rattle.chord_wire.specs.SessionReading.{next_session, next_session_answer};
ghost use Rattle.chord_wire.specs.SessionSpelling.{IsSessionFrame, IsSessionAnswer, session_frame, session_answer_frame, SpellsEach};
ghost use Rattle.chord_wire.specs.SessionFaults.{SessionFaultOf, SessionAnswerFaultOf};
ghost use Rattle.chord_map.specs.declared.pair.Pair.{Pair};
ghost use Rattle.chord_map.specs.Map.{values_at};
ghost use Rattle.chord_map.specs.Pairs.{IsRising};
ghost use Rattle.chord_map.specs.Checked.{IsValue};
ghost use Rattle.std.specs.List.{AllByRecursion};

/// A request, answer or fault stays the same whatever
/// bytes follow: how the stream was cut does not matter.
pub fn cuts_do_not_matter()
    ensures requests { (bytes more : List ℕ) → IsDecided (next_request bytes) → next_request (bytes ++ more) ≡ with_more more (next_request bytes) }
    ensures answers { (bytes more : List ℕ) → IsDecided (next_answer bytes) → next_answer (bytes ++ more) ≡ with_more more (next_answer bytes) }
    ensures sessions { (bytes more : List ℕ) → IsDecided (next_session bytes) → next_session (bytes ++ more) ≡ with_more more (next_session bytes) }
    ensures session_answers { (bytes more : List ℕ) → IsDecided (next_session_answer bytes) → next_session_answer (bytes ++ more) ≡ with_more more (next_session_answer bytes) }
{}

/// A stream spells one list of requests, or of answers: in full, or of a given length.
pub fn one_reading()
    ensures ended { (bytes : List ℕ) (rs ss : List WireRequest) (rest rest' : List ℕ) → Spells bytes rs rest → HasNoNext rest → Spells bytes ss rest' → HasNoNext rest' → (rs ≡ ss) × (rest ≡ rest') }
    ensures same_count { (bytes : List ℕ) (rs ss : List WireRequest) (rest rest' : List ℕ) → Spells bytes rs rest → Spells bytes ss rest' → length rs ≡ length ss → (rs ≡ ss) × (rest ≡ rest') }
    ensures answers_ended { (bytes : List ℕ) (xs ys : List Answer) (rest rest' : List ℕ) → SpellsAnswers bytes xs rest → HasNoNextAnswer rest → SpellsAnswers bytes ys rest' → HasNoNextAnswer rest' → (xs ≡ ys) × (rest ≡ rest') }
    ensures answers_same_count { (bytes : List ℕ) (xs ys : List Answer) (rest rest' : List ℕ) → SpellsAnswers bytes xs rest → SpellsAnswers bytes ys rest' → length xs ≡ length ys → (xs ≡ ys) × (rest ≡ rest') }
    ensures sessions_same_count { (bytes : List ℕ) (xs ys : List SessionFrame) (rest rest' : List ℕ) → SpellsEach IsSessionFrame session_frame bytes xs rest → SpellsEach IsSessionFrame session_frame bytes ys rest' → length xs ≡ length ys → (xs ≡ ys) × (rest ≡ rest') }
    ensures session_answers_same_count { (bytes : List ℕ) (xs ys : List SessionAnswer) (rest rest' : List ℕ) → SpellsEach IsSessionAnswer session_answer_frame bytes xs rest → SpellsEach IsSessionAnswer session_answer_frame bytes ys rest' → length xs ≡ length ys → (xs ≡ ys) × (rest ≡ rest') }
{}

/// No frame is a prefix of another, and no two requests or answers have the same frame.
pub fn no_frame_begins_another()
    ensures requests { (r s : WireRequest) (more : List ℕ) → IsWireRequest r → IsWireRequest s → request_frame r ++ more ≡ request_frame s → (r ≡ s) × (more ≡ []) }
    ensures answers { (x y : Answer) (more : List ℕ) → IsAnswer x → IsAnswer y → answer_frame x ++ more ≡ answer_frame y → (x ≡ y) × (more ≡ []) }
    ensures sessions { (x y : SessionFrame) (more : List ℕ) → IsSessionFrame x → IsSessionFrame y → session_frame x ++ more ≡ session_frame y → (x ≡ y) × (more ≡ []) }
    ensures session_answers { (x y : SessionAnswer) (more : List ℕ) → IsSessionAnswer x → IsSessionAnswer y → session_answer_frame x ++ more ≡ session_answer_frame y → (x ≡ y) × (more ≡ []) }
{}

/// A map's values under a key (at most 1,000 of at most 4,096 bytes each) have a frame.
pub fn values_of_a_map_have_a_frame()
    ensures { (key : List ℕ) (pairs : List Pair) → IsRising pairs → AllByRecursion (λ (pair : Pair). IsValue pair.value) pairs → length (values_at key pairs) ≤ 1000 → AreValues (values_at key pairs) }
{}

/// Reading answers a fault exactly if the table of faults has it for the start of the stream.
pub fn faults_are_those_of_the_table()
    ensures requests { (bytes : List ℕ) (fault : WireFault) → IsBytes bytes → (next_request bytes ≡ Err fault) ↔ FaultOf bytes fault }
    ensures answers { (bytes : List ℕ) (fault : WireFault) → IsBytes bytes → (next_answer bytes ≡ Err fault) ↔ AnswerFaultOf bytes fault }
    ensures sessions { (bytes : List ℕ) (fault : WireFault) → IsBytes bytes → (next_session bytes ≡ Err fault) ↔ SessionFaultOf bytes fault }
    ensures session_answers { (bytes : List ℕ) (fault : WireFault) → IsBytes bytes → (next_session_answer bytes ≡ Err fault) ↔ SessionAnswerFaultOf bytes fault }
{}

/// A request is read in a session as it is read alone.
pub fn requests_are_read_in_a_session()
    ensures { (bytes behind : List ℕ) (r : WireRequest) → IsBytes bytes → (next_session bytes ≡ Ok (Some (SessionFrame.Request r, behind))) ↔ (next_request bytes ≡ Ok (Some (r, behind))) }
{}
