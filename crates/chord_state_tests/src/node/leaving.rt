//! The stores of nodes that leave.

use super::counted_store::CountedStore;
use super::deeds::deed;
use super::found;
use super::stands::stands;
use crate::checks::check;
use chord_app_text::{LineFault, Words};
use chord_node::Node;
use chord_store::{EntryStore, NotedStore};
use chord_testkit::{Subject, Text, follow_on};
use std::alloc::Global;
use std::process::Abort;
use std::sync::atomic::{AtomicU64, Ordering};
use std::sync::{Arc, OnceLock};
use std::test::Fail;

/// Node 0, which holds the whole circle, with any store. Its deeds are those of `deeds`.
#[derive(Drop)]
struct Leaver<S: EntryStore> {
    alloc: Global,
    node: Node<S>,
}

impl<S: EntryStore> Subject for Leaver<S> {
    fn act(&mut self, words: &mut Words) -> Result<Text, LineFault> {
        deed(self.alloc, &mut self.node, true, words)
    }

    fn show(&self) -> Text {
        stands(&self.node)
    }
}

fn with_store<S: EntryStore>(rt: &impl Abort, alloc: Global, store: S) -> Leaver<S> {
    let node = found(alloc, store).expect(rt, "memory for a node");
    Leaver { alloc, node }
}

const HANDS_OVER: &str = "
# x is added under `abc`
ask 1 insert abc x > Told 0#1 added, executed 0#1 added; Staying (A A] pairs 1
# a staying node begins to leave
leave > Ok; Leaving (A A] pairs 1
# a leaving node gives what it holds
give 0 1 > 0#1 to 1 1/1 (A A], 0#1 abc+x with abc=x; Leaving out 1#1 (A A] 1
# a node with an item in its outbox does not retire
retire > NotEmpty
# a Got frees the item that it names
got 0#1 to 1 > Freed; Leaving
# a Got that comes again finds nothing
got 0#1 to 1 > NotThere
";

const RETIRES: &str = "
# a leaving node retires once its handovers were taken
retire > Ok; Gone
";

/// A node hands over what it holds and retires: what the cell of its store has before it retires,
/// and then.
fn note_retirement(
    leaving: &mut Leaver<NotedStore>,
    note: &Arc<OnceLock<u64>>,
) -> Result<[Option<u64>; 2], Fail> {
    follow_on(leaving, HANDS_OVER)?;
    let before = note.get().copied();
    follow_on(leaving, RETIRES)?;
    Ok([before, note.get().copied()])
}

/// The store puts its count into the cell when it is dropped.
#[test]
fn a_store_is_dropped_at_retirement(rt: HostRuntime) -> Result<(), Fail> {
    let note = Arc::new(rt.alloc(), OnceLock::new()).expect(&rt, "memory for a cell");
    let store = NotedStore::new(rt.alloc(), note.clone().expect(&rt, "room for a clone"));
    let mut leaving = with_store(&rt, rt.alloc(), store);
    let noted = note_retirement(&mut leaving, &note);
    drop(leaving);
    drop(note);
    let [before, retired] = noted?;
    check!(&rt; before == None, "a leaving node has its store");
    check!(&rt;
        retired == Some(0),
        "a node that retires drops its store, which is empty"
    );
    Ok(())
}

/// A node hands over what it holds and retires: how often its store was dropped before it retires,
/// and then.
fn count_drops(
    leaving: &mut Leaver<CountedStore<'_>>,
    drops: &AtomicU64,
) -> Result<[u64; 2], Fail> {
    follow_on(leaving, HANDS_OVER)?;
    let before = drops.load(Ordering::SeqCst);
    follow_on(leaving, RETIRES)?;
    Ok([before, drops.load(Ordering::SeqCst)])
}

/// The store counts its drops.
#[test]
fn a_store_is_dropped_once(rt: HostRuntime) -> Result<(), Fail> {
    let drops = AtomicU64::new(0);
    let mut leaving = with_store(&rt, rt.alloc(), CountedStore::new(rt.alloc(), &drops));
    let counted = count_drops(&mut leaving, &drops);
    drop(leaving);
    let [before, retired] = counted?;
    let after = drops.load(Ordering::SeqCst);
    check!(&rt; before == 0, "a leaving node has its store");
    check!(&rt; retired == 1, "a node that retires drops its store");
    check!(&rt; after == 1, "a gone node has no store to drop");
    Ok(())
}
