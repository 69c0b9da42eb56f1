//! Counts of a server's connections and of its sessions, for its operator.
ghost use Rattle.std.specs.Prelude.{◌≡◌};
ghost use Rattle.chord_app_serve.specs.Counts.{is_refusal, one_more, with_end, with_served};

use chord_app_operator::{EndCounts, SessionCounts};
use chord_app_sockets::Ended;
use chord_serve::Served;
use chord_wire::FaultCode;
use std::sync::{Mutex, Wait};

/// How many connections ended, by how, and what became of sessions.
#[derive(Drop)]
pub struct Tally {
    ends: Mutex<EndCounts>,
    /// `kept` stays 0.
    sessions: Mutex<SessionCounts>,
}

/// One more, if that fits.
fn one_more(count: u64) -> u64
    ensures { result ≡ one_more count }
{
    count.saturating_add(1)
}

/// Counts a connection that was served and ended so.
fn count_served(ends: &mut EndCounts, served: &Served)
    ensures { ends.new ≡ with_served served.now ends.old }
{
    match served {
        Served::Ended => ends.ended = one_more(ends.ended),
        Served::Quit => ends.ended = one_more(ends.ended),
        Served::Truncated => ends.truncated = one_more(ends.truncated),
        Served::Malformed(_) => ends.malformed = one_more(ends.malformed),
        Served::Protocol => ends.protocol = one_more(ends.protocol),
        Served::Foreign => ends.protocol = one_more(ends.protocol),
        Served::Read => ends.read = one_more(ends.read),
        Served::Write => ends.write = one_more(ends.write),
        Served::TurnsSpent => ends.turns_spent = one_more(ends.turns_spent),
        Served::Memory => ends.memory = one_more(ends.memory),
    }
}

/// Counts a connection that ended so.
fn count_end(ends: &mut EndCounts, ended: &Ended)
    ensures { ends.new ≡ with_end ended.now ends.old }
{
    match ended {
        Ended::Served(served) => count_served(ends, served),
        Ended::CallersSpent => ends.callers_spent = one_more(ends.callers_spent),
        Ended::Idle => ends.idle = one_more(ends.idle),
        Ended::NotAccepted => ends.read = one_more(ends.read),
    }
}

/// Whether a connection that ended so was refused a session.
fn is_refusal(ended: &Ended) -> bool
    ensures { result ≡ is_refusal ended.now }
{
    match ended {
        Ended::Served(Served::Malformed(FaultCode::SessionKnown)) => true,
        Ended::Served(Served::Malformed(FaultCode::NoSession)) => true,
        _ => false,
    }
}

/// The counts of sessions with this number of those that are kept.
fn with_kept(sessions: SessionCounts, kept: u64) -> SessionCounts
    ensures { result ≡ record sessions { kept = kept } }
{
    SessionCounts { kept, ..sessions }
}

impl Tally {
    pub fn new() -> Tally {
        Tally {
            ends: Mutex::new(EndCounts::default()),
            sessions: Mutex::new(SessionCounts::default()),
        }
    }

    /// Counts a connection that ended.
    pub fn end(&self, rt: &impl Wait, ended: &Ended) {
        count_end(&mut self.ends.lock(rt), ended);
        if is_refusal(ended) {
            let mut sessions = self.sessions.lock(rt);
            sessions.refused = one_more(sessions.refused);
        }
    }

    /// Counts a session that goes on over another connection.
    pub fn resume(&self, rt: &impl Wait) {
        let mut sessions = self.sessions.lock(rt);
        sessions.resumed = one_more(sessions.resumed);
    }

    /// Counts a session that was dropped for its caller or its memory.
    pub fn drop_session(&self, rt: &impl Wait) {
        let mut sessions = self.sessions.lock(rt);
        sessions.dropped = one_more(sessions.dropped);
    }

    /// How many connections ended, by how.
    pub fn ends(&self, rt: &impl Wait) -> EndCounts {
        *self.ends.lock(rt)
    }

    /// The counts of sessions, with the number of those that are kept now.
    pub fn sessions(&self, rt: &impl Wait, kept: u64) -> SessionCounts {
        with_kept(*self.sessions.lock(rt), kept)
    }
}
