//! What holds of all journals. These functions have no code; their contracts are the laws.
ghost use Rattle.std.specs.Prelude.{◌≡◌, ◌++◌, ◌∷◌, ◌<◌, [], List, ℕ, length, take};
ghost use Rattle.chord_journal.specs.Journal.{journal, spelled};
ghost use Rattle.chord_journal.specs.Loading.{AreRequests, BeginsAlike, CallFor, changes, commands_of, load, under};
ghost use Rattle.chord_map.specs.Checked.{IsRequest};
ghost use Rattle.chord_map.specs.History.{Replies, replay};
ghost use Rattle.chord_map.specs.Map.{values_at};
ghost use Rattle.chord_map.specs.declared.done.Done.{Done};
ghost use Rattle.chord_map.specs.declared.request.Request.{Request};
ghost use Rattle.chord_resp.specs.Machine.{start};
ghost use Rattle.chord_resp.specs.Reading.{reading, with_commands};

/// A journal is the commands of its calls, one behind the other.
pub fn journals_grow()
    ensures { (dones : List Done) (done : Done)
        → journal (dones ++ done ∷ []) ≡ journal dones ++ spelled done }
{}

/// A journal is read as the commands of its calls, whatever follows. Each is an SADD or an SREM of
/// one value, and no change is left out.
pub fn journals_are_read()
    ensures read { (dones : List Done) (rest : List ℕ) → AreRequests dones
        → reading start (journal dones ++ rest)
        ≡ with_commands (commands_of dones) (reading start rest) }
    ensures called { (dones : List Done) → AreRequests dones
        → CallFor (commands_of dones) (changes dones) }
{}

/// A last command that is cut short is not read, and those before it are.
pub fn torn_ends_are_dropped()
    ensures { (dones : List Done) (done : Done) (n : ℕ)
        → AreRequests dones → IsRequest done.request → n < length (spelled done)
        → (reading start (journal dones ++ take n (spelled done))).commands ≡ commands_of dones }
{}

/// A journal that is cut anywhere is read as its first commands, and its end is no error.
pub fn cut_journals_begin_alike()
    ensures { (dones : List Done) (front back : List ℕ)
        → AreRequests dones → front ++ back ≡ journal dones
        → BeginsAlike (reading start front) (commands_of dones) }
{}

/// The changes of a history make the map of the history.
pub fn changes_make_the_map()
    ensures { (dones : List Done) → Replies [] dones → load [] (changes dones) ≡ replay [] dones }
{}

/// So do requests that have each key's changes in the order of the history, however the keys are
/// mixed.
pub fn keys_may_be_mixed()
    ensures { (key : List ℕ) (dones : List Done) (requests : List Request)
        → Replies [] dones → under key requests ≡ under key (changes dones)
        → values_at key (load [] requests) ≡ values_at key (replay [] dones) }
{}
