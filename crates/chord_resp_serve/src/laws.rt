//! What holds of all connections. These functions have no code; their contracts are the laws.
ghost use Rattle.std.specs.Prelude.{◌≡◌, ◌++◌, ℕ, List, []};
ghost use Rattle.chord_serve.specs.declared.link.stage.Stage.{Stage};
ghost use Rattle.chord_serve.specs.declared.link.stage.Stage.TheVariants.{Over};
ghost use Rattle.chord_serve.specs.declared.served.Served.{Served as ServedOf};
ghost use Rattle.chord_serve.specs.declared.served.Served.TheVariants.{Write};
ghost use Rattle.chord_resp.specs.Machine.{State};
ghost use Rattle.chord_resp_serve.specs.Connections.{IsAnswered};
ghost use Rattle.chord_resp_serve.specs.Waiting.{CommandStands};

use crate::command_protocol::CommandProtocol;
use crate::informs::Informs;
use chord_serve::Asker;

/// A link that speaks Redis's protocol answers its connection, whatever drives it, in whichever
/// thread. At each end of it this is what it read and answered. Where it is let go before all is
/// written, be it while a command waits, it wrote a prefix of that: such a command is answered as
/// one whose request had no answer.
pub fn links_are_answered<A: Asker, I: Informs>()
    ensures ended { (first last : CommandProtocol A I) (from : State) (end : ServedOf)
        (input output : List ℕ)
        → first.commands ≡ record { state = from; bytes = [] }
        → CommandStands A.answers I.tells (Over end) first input output last
        → IsAnswered A.answers (I.tells first.server.source.now) first.server.number from end
        first.standing first.asker input output last.asker }
    ensures lost { (first last : CommandProtocol A I) (from : State) (stage : Stage)
        (input sent due : List ℕ)
        → first.commands ≡ record { state = from; bytes = [] }
        → CommandStands A.answers I.tells stage first input (sent ++ due) last
        → IsAnswered A.answers (I.tells first.server.source.now) first.server.number from Write
        first.standing first.asker input sent last.asker }
{}
