//! What the replies to a command's requests come to.
ghost use Rattle.std.specs.Prelude.{◌≡◌, ◌≤◌, ◌<◌, ◌+◌, ◌-◌, ◌^◌, OnOk, OnErr};
ghost use Rattle.chord_resp_serve.specs.Asking.{counts, is_full, heard, empty_tally, outcome_of};

use chord_map::Reply;
use chord_serve::Asked;

/// The replies so far.
#[derive(Debug, Drop)]
pub struct Tally {
    /// How many requests were done.
    pub done: u64,
    /// How many of them added or removed a value, or found one.
    pub count: u64,
    pub last: Option<Reply>,
}

/// Why the requests of a command ended before the last, and how many were done.
#[derive(Clone, Copy, Debug, PartialEq, Eq)]
pub enum Stopped {
    SetFull(u64),
    StoreFull(u64),
    NoAnswer(u64),
    Memory,
}

fn counts(reply: &Reply) -> bool
    ensures { result ≡ counts reply.now }
{
    match reply {
        Reply::Added | Reply::Removed => true,
        Reply::Values(values) => !values.as_slice().is_empty(),
        Reply::Present | Reply::SetFull | Reply::Absent => false,
    }
}

fn is_full(reply: &Reply) -> bool
    ensures { result ≡ is_full reply.now }
{
    matches!(reply, Reply::SetFull)
}

impl Tally {
    pub fn new() -> Tally
        ensures { result ≡ empty_tally }
    {
        Tally {
            done: 0,
            count: 0,
            last: None,
        }
    }

    /// Takes one more answer in. One that is no reply, or a full set, changes nothing.
    pub fn hear(&mut self, answer: Asked) -> Result<(), Stopped>
        requires more { self.old.done < 2 ^ 64 - 1 }
        requires few { self.old.count ≤ self.old.done }
        ensures heard { outcome_of result self.new ≡ heard self.old answer }
        ensures done { OnOk result (self.new.done ≡ self.old.done + 1) }
        ensures few { OnOk result (self.new.count ≤ self.new.done) }
        ensures kept { OnErr result (self.new ≡ self.old) }
    {
        match answer {
            Asked::Full => Err(Stopped::StoreFull(self.done)),
            Asked::NoAnswer => Err(Stopped::NoAnswer(self.done)),
            Asked::Memory => Err(Stopped::Memory),
            Asked::Reply(reply) => {
                if is_full(&reply) {
                    return Err(Stopped::SetFull(self.done));
                }
                if counts(&reply) {
                    self.count += 1;
                }
                self.done += 1;
                self.last = Some(reply);
                Ok(())
            }
        }
    }
}
