//! The commands on sets.
ghost use Rattle.std.specs.Prelude.{◌≡◌, ◌≤◌, length, IsErrOf};
ghost use Rattle.chord_resp.specs.Table.{Gives, set_command, is_of_sets};

use crate::table::command::Command;
use crate::table::denied::Denied;
use crate::table::operand::Operand;
use crate::table::operands::Operands;
use crate::table::verb::Verb;
use std::alloc::Global;

/// What a verb of sets calls for.
#[tactic(auto, unfolding(crate::specs::Table::set_command))]
pub fn set_command(alloc: Global, verb: Verb, mut operands: Operands) -> Result<Command, Denied>
    ensures exact { Gives (λ x. x) result (set_command verb operands) }
    ensures memory { IsErrOf result Denied.Memory → 2 ≤ length operands }
{
    if verb == Verb::Exists {
        let keys = operands.each(alloc, Operand::Key)?;
        return Ok(Command::Exist { keys });
    }
    let key = operands.take(Operand::Key)?;
    match verb {
        Verb::Sadd => {
            let members = operands.each(alloc, Operand::Member)?;
            Ok(Command::Add { key, members })
        }
        Verb::Srem => {
            let members = operands.each(alloc, Operand::Member)?;
            Ok(Command::Remove { key, members })
        }
        Verb::Smismember => {
            let members = operands.each(alloc, Operand::Member)?;
            Ok(Command::AreMembers { key, members })
        }
        Verb::Sismember => {
            let member = operands.take(Operand::Member)?;
            Ok(Command::IsMember { key, member })
        }
        Verb::Smembers => Ok(Command::Members { key }),
        Verb::Scard => Ok(Command::Count { key }),
        _ => Ok(Command::Kind { key }),
    }
}
