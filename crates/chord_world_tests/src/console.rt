//! Scripts of the console with the lines that they should write.
ghost use Rattle.std.specs.Prelude.{◌≡◌, [], IfOk};
ghost use Rattle.std.specs.List.{All};

use crate::checks::check;
use chord_app_text::{Fault, Finish, GrammarFault};
use chord_app_world::{add_store, empty_ones, world};
use chord_ident::Id;
use chord_map::Bytes;
use chord_store::{CappedStore, EntryStore, ListStore};
use std::alloc::{AllocError, Global};
use std::fmt::Write;
use std::test::Fail;

mod devices;
mod disturbed;
mod refusals;
mod rows;
mod worlds;

/// How a session ended, and whether it wrote the right lines.
type Ran = (Finish, bool);

/// The session is done, and wrote the right lines.
const DONE: Option<Ran> = Some((Finish::Done, true));

/// Runs the script over these stores.
fn runs<S: EntryStore>(alloc: Global, stores: Vec<S>, script: &str, wanted: &str) -> Ran
    requires { All (λ s. S.content s ≡ []) stores.items }
{
    runs_bytes(alloc, stores, script.as_bytes(), wanted)
}

/// Runs the script of these bytes over these stores.
fn runs_bytes<S: EntryStore>(alloc: Global, stores: Vec<S>, script: &[u8], wanted: &str) -> Ran
    requires { All (λ s. S.content s ≡ []) stores.items }
{
    let mut reader = script;
    let mut written: Vec<u8> = Vec::new(alloc);
    let finish = world(alloc, stores, &mut reader, &mut written);
    (finish, written.as_slice() == wanted.as_bytes())
}

/// Runs the script over one list store.
fn over_a_list(alloc: Global, script: &str, wanted: &str) -> Option<Ran> {
    bytes_over_a_list(alloc, script.as_bytes(), wanted)
}

/// Runs the script of these bytes over one list store.
fn bytes_over_a_list(alloc: Global, script: &[u8], wanted: &str) -> Option<Ran> {
    let mut stores = Vec::new(alloc);
    add_store(&mut stores, ListStore::new(alloc)).ok()?;
    Some(runs_bytes(alloc, stores, script, wanted))
}

/// A list of one store with room for one pair.
fn one_pair(alloc: Global) -> Result<Vec<CappedStore>, AllocError>
    ensures { IfOk result (λ stores. All (λ s. s.pairs ≡ []) stores.items) }
{
    let mut stores = Vec::new(alloc);
    add_store(&mut stores, CappedStore::new(alloc, 1))?;
    Ok(stores)
}

/// Runs the script over one store with room for one pair.
fn over_one_pair(alloc: Global, script: &str, wanted: &str) -> Option<Ran> {
    let stores = one_pair(alloc).ok()?;
    Some(runs(alloc, stores, script, wanted))
}

const FIRST_RUN: &str = concat!(
    "create 40000000000000000000000000000000\ncaller\ninsert 0 0 616263 78\ndeliver 0\n",
    "deliver 1\ndeliver 0\ndeliver 2\nhistory\n",
);

const FIRST_RUN_WRITES: &str = concat!(
    "node 0\ncaller 0\nmessage 0\ntold 1\nfresh added\ntold 2\nknown\nhistory 1\n",
);

const ONE_NODE_WORLD: &str = concat!(
    "create 40000000000000000000000000000000\ncaller\nretrieve 0 0 616263\ndeliver 0\n",
    "deliver 1\ninsert 0 0 616263 78\ndeliver 2\ndeliver 3\ninsert 0 0 616263 78\ndeliver 4\n",
    "deliver 5\nretrieve 0 0 616263\ndeliver 6\ndeliver 7\nremove 0 0 616263 78\ndeliver 8\n",
    "deliver 9\nremove 0 0 616263 78\ndeliver 10\ndeliver 11\n",
);

const ONE_NODE_WORLD_WRITES: &str = concat!(
    "node 0\ncaller 0\nmessage 0\ntold 1\nfresh values 0\nmessage 2\ntold 3\nfresh added\n",
    "message 4\ntold 5\nfresh present\nmessage 6\ntold 7\nfresh values 1 78\nmessage 8\n",
    "told 9\nfresh removed\nmessage 10\ntold 11\nfresh absent\n",
);

const REPEATS_AFTER_A_REMOVE: &str = concat!(
    "create 40000000000000000000000000000000\ncaller\ninsert 0 0 61 78\ndeliver 0\ndeliver 1\n",
    "remove 0 0 61 78\ndeliver 2\ndeliver 3\ndeliver 0\ndeliver 1\nretrieve 0 0 61\n",
    "deliver 4\ndeliver 5\n",
);

const REPEATS_AFTER_A_REMOVE_WRITES: &str = concat!(
    "node 0\ncaller 0\nmessage 0\ntold 1\nfresh added\nmessage 2\ntold 3\nfresh removed\n",
    "dropped\nknown\nmessage 4\ntold 5\nfresh values 0\n",
);

const WORLD_REFUSALS: &str = concat!(
    "insert 0 0 61 78\ncreate 40000000000000000000000000000000\n",
    "create c0000000000000000000000000000000\nretrieve 0 0 61\ncaller\nretrieve 0 1 61\n",
    "retrieve 0 0 -\ndeliver 0\n",
);

const WORLD_REFUSALS_WRITES: &str = concat!(
    "refused 2 NotCreated\nnode 0\nrefused 1 AlreadyCreated\nrefused 4 NoSuchCaller\n",
    "caller 0\nrefused 3 NoSuchNode\nrefused 9 KeyEmpty\nrefused 5 NoSuchMessage\n",
);

const WINDOW_OF_TWO: &str = concat!(
    "create 40000000000000000000000000000000\ncaller 2\ninsert 0 0 61 78\ninsert 0 0 61 79\n",
    "retrieve 0 0 61\ndeliver 1\ndeliver 2\nretrieve 0 0 61\ndeliver 0\ndeliver 3\ndeliver 0\n",
    "deliver 4\nretrieve 0 0 61\ndeliver 5\ndeliver 0\ndeliver 6\n",
);

const WINDOW_OF_TWO_WRITES: &str = concat!(
    "node 0\ncaller 0\nmessage 0\nmessage 1\nrefused 9 WindowFull\ntold 2\nfresh added\n",
    "refused 9 WindowFull\ntold 3\nfresh added\ntold 4\nknown\nmessage 5\ntold 6\ndropped\n",
    "fresh values 2 78 79\n",
);

const FULL_STORE: &str = concat!(
    "create 40000000000000000000000000000000\ncaller\ninsert 0 0 61 78\ndeliver 0\ndeliver 1\n",
    "insert 0 0 61 79\ndeliver 2\ndeliver 3\nremove 0 0 61 78\ndeliver 2\n",
);

const FULL_STORE_WRITES: &str = concat!(
    "node 0\ncaller 0\nmessage 0\ntold 1\nfresh added\nmessage 2\nfull 3\nfull\n",
    "refused 9 WindowFull\nfull 4\n",
);

/// Sessions over one list store.
const OVER_A_LIST: &[(&str, &str)] = &[
    (FIRST_RUN, FIRST_RUN_WRITES),
    (ONE_NODE_WORLD, ONE_NODE_WORLD_WRITES),
    (REPEATS_AFTER_A_REMOVE, REPEATS_AFTER_A_REMOVE_WRITES),
    (WORLD_REFUSALS, WORLD_REFUSALS_WRITES),
    (WINDOW_OF_TWO, WINDOW_OF_TWO_WRITES),
    (SHOW_AND_MEET, SHOW_AND_MEET_WRITES),
    (FINGERS_AND_LISTS, FINGERS_AND_LISTS_WRITES),
    (MORE_REFUSALS, MORE_REFUSALS_WRITES),
];

/// Each session ends as done, with the lines that it should write.
#[test]
fn sessions_over_a_list(rt: HostRuntime) {
    for (script, wanted) in OVER_A_LIST {
        check!(&rt; over_a_list(rt.alloc(), script, wanted) == DONE, script);
    }
}

/// Sessions over a store for one pair, in which calls that found the store full are sent again.
const OVER_ONE_PAIR: &[(&str, &str)] = &[
    (FULL_STORE, FULL_STORE_WRITES),
    (FULL_STORE_RETRY, FULL_STORE_RETRY_WRITES),
];

/// Each session ends as done, with the lines that it should write.
#[test]
fn sessions_over_one_pair(rt: HostRuntime) {
    for (script, wanted) in OVER_ONE_PAIR {
        let ran = over_one_pair(rt.alloc(), script, wanted);
        check!(&rt; ran == DONE, script);
    }
}

/// The session ends at this line, from 1, which is outside the grammar, and wrote the right lines
/// before that.
fn stops_at(line: u64, why: GrammarFault) -> Option<Ran> {
    Some((Finish::Fault(Fault::Line { line, why }), true))
}

#[test]
fn bad_line(rt: HostRuntime) {
    let script =
        "create 40000000000000000000000000000000\ncreat 80000000000000000000000000000000\n";
    let ran = over_a_list(rt.alloc(), script, "node 0\n");
    check!(&rt; ran == stops_at(2, GrammarFault::NoLine));
}

/// Lines outside the grammar, and which word is wrong in each.
const NO_LINES: &[(&str, GrammarFault)] = &[
    ("\n", GrammarFault::NoLine),
    (" history\n", GrammarFault::NoLine),
    ("history\r\n", GrammarFault::NoLine),
    ("History\n", GrammarFault::NoLine),
    ("deliver\t0\n", GrammarFault::NoLine),
    ("creat 1 2 3\n", GrammarFault::NoLine),
    ("create\n", GrammarFault::Missing(2)),
    ("deliver\n", GrammarFault::Missing(2)),
    ("retrieve 0 0\n", GrammarFault::Missing(4)),
    ("insert 0 0 61\n", GrammarFault::Missing(5)),
    ("history \n", GrammarFault::TooMany(2)),
    ("caller 1 2\n", GrammarFault::TooMany(3)),
    ("retrieve 0 0 61 78\n", GrammarFault::TooMany(5)),
    ("resend 0 0 1 2\n", GrammarFault::TooMany(5)),
    ("caller 01\n", GrammarFault::NoNumber(2)),
    ("caller +1\n", GrammarFault::NoNumber(2)),
    ("caller  1\n", GrammarFault::NoNumber(2)),
    ("deliver 18446744073709551616\n", GrammarFault::NoNumber(2)),
    ("meet 0 x\n", GrammarFault::NoNumber(3)),
    ("part 0 1 2 -1\n", GrammarFault::NoNumber(5)),
    (
        "create 4000000000000000000000000000000\n",
        GrammarFault::NoIdentifier(2),
    ),
    (
        "cut 0 0 4000000000000000000000000000000g\n",
        GrammarFault::NoIdentifier(4),
    ),
    ("retrieve 0 0 6\n", GrammarFault::NoBytes(4)),
    ("retrieve 0 0 6g\n", GrammarFault::NoBytes(4)),
    ("remove 0 0 61 --\n", GrammarFault::NoBytes(5)),
];

/// Each of these lines is the first of its script, and ends the session.
#[test]
fn lines_outside_the_grammar(rt: HostRuntime) {
    for (line, why) in NO_LINES {
        let ran = over_a_list(rt.alloc(), line, "");
        check!(&rt; ran == stops_at(1, *why), line);
    }
}

/// The lines before one that is not UTF-8 are done.
#[test]
fn a_line_that_is_no_text(rt: HostRuntime) {
    let ran = bytes_over_a_list(rt.alloc(), b"caller\nhistory \xff\n", "caller 0\n");
    check!(&rt; ran == stops_at(2, GrammarFault::NoText));
}

fn over_no_store(alloc: Global, script: &str, wanted: &str) -> Ran {
    let none: Vec<ListStore> = Vec::new(alloc);
    runs(alloc, none, script, wanted)
}

#[test]
fn a_world_with_no_stores(rt: HostRuntime) {
    let script = "create 40000000000000000000000000000000";
    let ran = over_no_store(rt.alloc(), script, "refused 7 NoStore\n");
    check!(&rt; ran == (Finish::Done, true));
}

/// Adds 1,000 values of two bytes to a set: the script, and the lines that it should write.
fn full_set(alloc: Global) -> Result<(String, String), AllocError> {
    let mut script = String::from_str(alloc, "create 40000000000000000000000000000000\ncaller\n")?;
    let mut wanted = String::from_str(alloc, "node 0\ncaller 0\n")?;
    for value in 0..1000u32 {
        let asked = 2 * value;
        let told = 2 * value + 1;
        write!(
            script,
            "insert 0 0 61 {value:04}\ndeliver {asked}\ndeliver {told}\n"
        )?;
        write!(wanted, "message {asked}\ntold {told}\nfresh added\n")?;
    }
    Ok((script, wanted))
}

const FULL_STORE_RETRY: &str = concat!(
    "create 40000000000000000000000000000000\ncaller\ncaller\ninsert 0 0 61 78\ndeliver 0\n",
    "deliver 1\ninsert 1 0 61 79\ndeliver 2\ndeliver 3\nretrieve 1 0 61\nremove 0 0 61 78\n",
    "deliver 4\ndeliver 5\nresend 1 0\ndeliver 6\ndeliver 7\n",
);

const FULL_STORE_RETRY_WRITES: &str = concat!(
    "node 0\ncaller 0\ncaller 1\nmessage 0\ntold 1\nfresh added\nmessage 2\nfull 3\nfull\n",
    "refused 9 WindowFull\nmessage 4\ntold 5\nfresh removed\nmessage 6\ntold 7\nfresh added\n",
);

const SHOW_AND_MEET: &str = concat!(
    "create 40000000000000000000000000000000\ncaller\ncaller\ninsert 1 0 61 78\ndeliver 0\n",
    "deliver 1\nshow 1\nmeet 0 2\nretrieve 0 0 61\ndeliver 3\ndeliver 4\ndeliver 2\nmeet 0 1\n",
    "meet 7 2\nhistory\n",
);

const SHOW_AND_MEET_WRITES: &str = concat!(
    "node 0\ncaller 0\ncaller 1\nmessage 0\ntold 1\nfresh added\nmessage 2\nmet\nmessage 3\n",
    "told 4\nfresh values 1 78\nrefused 9 NeedsMeet\nrefused 9 NotNote\n",
    "refused 4 NoSuchCaller\nhistory 2\n",
);

const FINGERS_AND_LISTS: &str = concat!(
    "create 40000000000000000000000000000000\nfinger 0 129 7\nfinger 0 129 0\nfinger 0 1 0\n",
    "list 0\n",
);

const FINGERS_AND_LISTS_WRITES: &str = concat!(
    "node 0\nrefused 3 NoSuchNode\nrefused 9 BadFinger\nok\nlist 0\n",
);

const MORE_REFUSALS: &str = concat!(
    "resend 0 0\nshow 0\nmeet 0 0\nfinger 0 1 0\nlist 0\n",
    "create 40000000000000000000000000000000\ncaller 2\nresend 0 0\nresend 0 1\nresend 1 0\n",
    "insert 0 0 61 78\ninsert 0 0 61 79\nresend 0 0 2\nresend 0 0 3\nresend 0 0\ndeliver 2\n",
    "deliver 4\nresend 0 0 2\ndeliver 1\ndeliver 3\nmeet 0 9\nshow 1\nlist 1\n",
);

const MORE_REFUSALS_WRITES: &str = concat!(
    "refused 2 NotCreated\nrefused 2 NotCreated\nrefused 2 NotCreated\nrefused 2 NotCreated\n",
    "none\nnode 0\ncaller 0\nrefused 9 Idle\nrefused 3 NoSuchNode\nrefused 4 NoSuchCaller\n",
    "message 0\nmessage 1\nmessage 2\nrefused 9 Idle\nmessage 3\ntold 4\nfresh added\n",
    "refused 9 Idle\ntold 5\ntold 6\nrefused 5 NoSuchMessage\nrefused 4 NoSuchCaller\nnone\n",
);

/// Requests to the full set, and the lines that they should write.
const AT_THE_LIMIT: &str =
    "insert 0 0 61 1000\ndeliver 2000\ndeliver 2001\ninsert 0 0 61 0999\ndeliver 2002\ndeliver 2003\nremove 0 0 61 0000\ndeliver 2004\ndeliver 2005\ninsert 0 0 61 1000\ndeliver 2006\ndeliver 2007\n";

const AT_THE_LIMIT_WRITES: &str =
    "message 2000\ntold 2001\nfresh setfull\nmessage 2002\ntold 2003\nfresh present\nmessage 2004\ntold 2005\nfresh removed\nmessage 2006\ntold 2007\nfresh added\n";

/// Runs a script that fills a set, followed by requests to the full set.
fn over_a_full_set(alloc: Global) -> Option<Ran> {
    let (mut script, mut wanted) = full_set(alloc).ok()?;
    script.push_str(AT_THE_LIMIT).ok()?;
    wanted.push_str(AT_THE_LIMIT_WRITES).ok()?;
    over_a_list(alloc, script.as_str(), wanted.as_str())
}

#[test]
fn full_sets(rt: HostRuntime) {
    check!(&rt; over_a_full_set(rt.alloc()) == DONE);
}

/// A vector with room for all lines, tried twice.
fn with_room(alloc: Global) -> Result<Vec<u8>, AllocError> {
    match Vec::with_capacity(alloc, 1000) {
        Ok(room) => Ok(room),
        Err(_) => Vec::with_capacity(alloc, 1000),
    }
}

/// How a session over a store for one pair ends, and whether it wrote all its lines, or if out of
/// memory only whole ones.
fn over_one_pair_at_most(alloc: Global) -> Option<Ran> {
    let stores = match one_pair(alloc) {
        Ok(stores) => stores,
        Err(_) => one_pair(alloc).ok()?,
    };
    let mut written = with_room(alloc).ok()?;
    let mut reader = FULL_STORE_RETRY.as_bytes();
    let finish = world(alloc, stores, &mut reader, &mut written);
    let wanted = FULL_STORE_RETRY_WRITES.as_bytes();
    if finish != Finish::OutOfMemory {
        return Some((finish, written.as_slice() == wanted));
    }
    let ends_a_line = written.last().is_none_or(|byte| *byte == b'\n');
    Some((finish, ends_a_line && wanted.starts_with(&written)))
}

/// Out of memory ends the session, and the line of that step is not written.
#[test]
fn a_refused_growth_ends_the_session(rt: HostRuntime) {
    let ran = over_one_pair_at_most(rt.alloc());
    check!(&rt; matches!(ran, Some((Finish::Done | Finish::OutOfMemory, true))));
    check!(&rt; Finish::OutOfMemory.status() == 3);
}

/// How many of two stores are kept, if the second has a pair.
fn kept_of_two(alloc: Global) -> Result<usize, Fail> {
    let mut stores = Vec::new(alloc);
    stores.push(CappedStore::new(alloc, 1))?;
    let mut second = CappedStore::new(alloc, 1);
    let key = Bytes::from_slice(alloc, b"a")?;
    let id = Id::of_bytes(key.as_slice());
    let value = Bytes::from_slice(alloc, b"x")?;
    let added = second.insert(id, &key, &value).is_ok();
    drop(value);
    drop(key);
    stores.push(second)?;
    let kept = empty_ones(alloc, stores)?;
    if added {
        Ok(kept.len())
    } else {
        Err(Fail::from("no pair was added"))
    }
}

#[test]
fn stores_with_pairs_are_left_out(rt: HostRuntime) -> Result<(), Fail> {
    check!(&rt; kept_of_two(rt.alloc())? == 1);
    Ok(())
}
