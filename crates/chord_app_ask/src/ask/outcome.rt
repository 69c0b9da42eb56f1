//! How a request ended.
ghost use Rattle.std.specs.Prelude.{◌≡◌};
ghost use Rattle.chord_app_ask.specs.Questions.{is_answered};

use chord_app_text::ReplyText;
use chord_map::Reply;
use chord_wire::FaultCode;
use std::fmt;

#[derive(Debug, Drop)]
pub enum AskOutcome {
    Reply(Reply),
    Full,
    NoAnswer,
    /// A fault that sending again does not mend.
    Fault(FaultCode),
    /// The server had no caller for the connection, so the request was not done.
    CallersSpent,
    /// The connection ended before the answer came.
    Lost,
}

impl AskOutcome {
    pub fn is_reply(&self) -> bool
        ensures { result ≡ is_answered self.now }
    {
        matches!(self, AskOutcome::Reply(_))
    }
}

impl fmt::Display for AskOutcome {
    fn fmt<W: fmt::Write>(&self, f: &mut fmt::Formatter<W>) -> fmt::Result {
        match self {
            AskOutcome::Reply(reply) => {
                let reply = ReplyText(reply);
                write!(f, "{reply}")
            }
            AskOutcome::Full => f.write_str("full"),
            AskOutcome::NoAnswer => f.write_str("noanswer"),
            AskOutcome::Fault(code) => {
                let code = code.to_number();
                write!(f, "fault {code}")
            }
            AskOutcome::CallersSpent => f.write_str("callersspent"),
            AskOutcome::Lost => f.write_str("lost"),
        }
    }
}
