//! A command whose requests are being asked.
ghost use Rattle.std.specs.Prelude.{◌≡◌, ◌≤◌, ◌<◌, length};
ghost use Rattle.chord_resp_serve.specs.Asking.{requests_of};
ghost use Rattle.chord_resp_serve.specs.Words.{flow_of};

use crate::flow::Flow;
use crate::requests::Requests;
use crate::tally::Tally;
use chord_resp::Command;

/// A command of which a request was asked whose answer is not heard yet.
#[derive(Drop)]
pub struct WaitingCommand {
    pub command: Command,
    pub requests: Requests,
    /// How the connection goes on behind it.
    pub flow: Flow,
    /// What the requests before that one came to; `done` is its place.
    pub tally: Tally,
    /// What INFO and TIME are told, which is empty for another command.
    pub info: Vec<u8>,
    ghost asks: { requests ≡ requests_of command },
    ghost goes: { flow ≡ flow_of command },
    ghost few: { tally.count ≤ tally.done },
    ghost next: { tally.done < length requests },
}
