//! The plain map of sets.
ghost use Rattle.std.specs.Prelude.{◌≡◌, List, []};
ghost use Rattle.chord_map.specs.declared.pair.Pair.{Pair};
ghost use Rattle.chord_map.specs.Map.{reply_to, pairs_after};
ghost use Rattle.chord_map.specs.Checked.{IsRequest, ApplyIs};

use crate::bytes::Bytes;
use crate::limits::SET_VALUES;
use crate::pair_list::PairList;
use crate::reply::Reply;
use crate::request::Request;
use std::alloc::{AllocError, Global};
use std::marker::Model;

/// A map from keys to sets of values, empty at first. It is slow: each call may scan all pairs.
#[derive(Debug, Drop)]
pub struct PlainMap {
    alloc: Global,
    pairs: PairList,
}

impl Model for PlainMap {
    ghost Value = { List Pair };

    ghost view = { λ map. map.pairs };
}

impl PlainMap {
    pub fn new(alloc: Global) -> PlainMap
        ensures { result ≡ [] }
    {
        PlainMap {
            alloc,
            pairs: PairList::new(alloc),
        }
    }

    /// Answers the request.
    pub fn apply(&mut self, request: &Request) -> Result<Reply, AllocError>
        requires { IsRequest request.now }
        ensures { ApplyIs request.now self.old result self.new }
    {
        match request {
            Request::Insert { key, value } => insert(&mut self.pairs, key, value),
            Request::Retrieve { key } => retrieve(self.alloc, &self.pairs, key),
            Request::Remove { key, value } => Ok(remove(&mut self.pairs, key, value)),
        }
    }
}

// Adds the value under the key, if it is new and the set has room.
fn insert(pairs: &mut PairList, key: &Bytes, value: &Bytes) -> Result<Reply, AllocError>
    ensures { ApplyIs (Request.Insert key.now value.now) pairs.old result pairs.new }
{
    let key = key.as_slice();
    let value = value.as_slice();
    if pairs.contains(key, value) {
        return Ok(Reply::Present);
    }
    if pairs.count_under(key) >= SET_VALUES {
        return Ok(Reply::SetFull);
    }
    pairs.insert(key, value)?;
    Ok(Reply::Added)
}

fn retrieve(alloc: Global, pairs: &PairList, key: &Bytes) -> Result<Reply, AllocError>
    ensures { ApplyIs (Request.Retrieve key.now) pairs.now result pairs.now }
{
    let values = pairs.values(alloc, key.as_slice())?;
    Ok(Reply::Values(values.share()?))
}

fn remove(pairs: &mut PairList, key: &Bytes, value: &Bytes) -> Reply
    ensures reply { result ≡ reply_to (Request.Remove key.now value.now) pairs.old }
    ensures change { pairs.new ≡ pairs_after (Request.Remove key.now value.now) pairs.old }
{
    if pairs.remove(key.as_slice(), value.as_slice()) {
        Reply::Removed
    } else {
        Reply::Absent
    }
}
