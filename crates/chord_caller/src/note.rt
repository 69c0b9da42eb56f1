//! Notes, in which callers send what they know.
ghost use Rattle.std.specs.Prelude.{◌≡◌, ◌++◌, ◌&&◌, ℕ, not, is_some, IfOk};
ghost use Rattle.chord_map.specs.History.{done_at};
ghost use Rattle.chord_caller.specs.Names.{has_name};
ghost use Rattle.chord_caller.specs.Unknown.{not_in};

use chord_map::Done;
use std::alloc::{AllocError, Global};
use std::collections::BTreeSet;
use std::marker::Model;

/// What a caller knows: the calls that it took, then those that notes told it of.
#[derive(Debug, Drop)]
pub struct Note {
    pub caller: u64,
    pub done: Vec<Done>,
}

impl Model for Note {
    ghost use Rattle.chord_caller.specs.Caller.{Note as NoteOf};

    ghost Value = { NoteOf };

    ghost view = { λ note. record { caller = note.caller; done = note.done.items } };
}

/// The names of the calls: the caller and the number of each.
fn names_of(alloc: Global, dones: &[Done]) -> Result<BTreeSet<(u64, u64)>, AllocError>
    ensures { IfOk result (λ names. (caller number : ℕ) → has_name caller number names ≡ is_some (done_at caller number dones.now)) }
{
    let mut names = BTreeSet::new(alloc);
    for done in dones {
        names.insert((done.caller, done.number))?;
    }
    Ok(names)
}

/// Removes the names of these calls.
fn strike_out(names: &mut BTreeSet<(u64, u64)>, dones: &[Done])
    ensures { (caller number : ℕ) → has_name caller number names.new ≡ (has_name caller number names.old && not (is_some (done_at caller number dones.now))) }
{
    for done in dones {
        names.remove(&(done.caller, done.number));
    }
}

/// Copies of the calls that are in neither list.
pub fn copy_unknown(
    alloc: Global,
    dones: &[Done],
    mine: &[Done],
    told: &[Done],
) -> Result<Vec<Done>, AllocError>
    ensures { IfOk result (λ news. news.items ≡ not_in (mine.now ++ told.now) dones.now) }
{
    let mut unknown = names_of(alloc, dones)?;
    strike_out(&mut unknown, mine);
    strike_out(&mut unknown, told);
    let mut news = Vec::new(alloc);
    for done in dones {
        if unknown.contains(&(done.caller, done.number)) {
            news.push(done.try_copy()?)?;
        }
    }
    Ok(news)
}
