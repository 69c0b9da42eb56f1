//! A list of executed calls that only grows.
ghost use Rattle.std.specs.Prelude.{◌≡◌, [], ◌∷◌, ◌++◌, true, false, OnOk, OnErr};

use chord_map::Done;
use std::alloc::{AllocError, Global};
use std::marker::Model;

/// The executed calls, in the order in which they were executed.
#[derive(Drop)]
pub struct History {
    calls: Vec<Done>,
}

impl Model for History {
    ghost use Rattle.std.specs.Prelude.{nat_lt};
    ghost use Rattle.std.specs.Vec.{vec_len, vec_capacity};
    ghost use Rattle.chord_history.specs.Executed.{Executed};

    ghost Value = { Executed };

    ghost view = { λ history. record { calls = history.calls.items; has_room = nat_lt (vec_len history.calls) (vec_capacity history.calls) } };
}

impl History {
    /// No call was executed yet.
    pub fn new(alloc: Global) -> History
        ensures { result.calls ≡ [] }
    {
        History {
            calls: Vec::new(alloc),
        }
    }

    /// The executed calls, in order.
    pub fn calls(&self) -> &[Done]
        ensures { result.now ≡ self.now.calls }
    {
        self.calls.as_slice()
    }

    /// Makes room for one more call, as the next `add` requires.
    pub fn reserve(&mut self) -> Result<(), AllocError>
        ensures same { self.new.calls ≡ self.old.calls }
        ensures room { OnOk result (self.new.has_room ≡ true) }
        ensures full { OnErr result (self.old.has_room ≡ false) }
    {
        self.calls.reserve(1)
    }

    /// A call was executed.
    pub fn add(&mut self, done: Done)
        requires { self.old.has_room ≡ true }
        ensures { self.new.calls ≡ self.old.calls ++ done ∷ [] }
    {
        self.calls.push_reserved(done);
    }
}
