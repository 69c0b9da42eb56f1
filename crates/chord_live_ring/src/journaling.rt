//! The journal of a ring. Its lock is taken behind that of a node, and no other behind it.
ghost use Rattle.std.specs.Prelude.{◌≡◌, [], true, false};
ghost use Rattle.chord_journal.specs.Journal.{added};
ghost use Rattle.chord_live_ring.specs.Journals.{asks_change};
ghost use Rattle.chord_live_steps.specs.Dealt.{executed_for};
ghost use Rattle.chord_model.specs.Node.{Node};

use crate::ring::Ring;
use crate::seated_node::SeatedNode;
use crate::waiting::lock_soon;
use chord_journal::{JournalBuffer, JournalPiece};
use chord_live_steps::{Keyed, Target};
use chord_map::Request;
use chord_node::Message;
use chord_store::EntryStore;
use chord_table::Naming;
use std::sync::atomic::Ordering;
use std::sync::{Mutex, Wait};

/// Whether the message asks for a change of the map.
fn asks_change(message: &Message) -> bool
    ensures answer { result ≡ asks_change message.now }
    ensures other { result ≡ false → (node : Node) → added true (executed_for message.now node) ≡ [] }
{
    match message {
        Message::Ask(ask) => match ask.request {
            Request::Insert { .. } | Request::Remove { .. } => true,
            Request::Retrieve { .. } => false,
        },
        _ => false,
    }
}

impl<J: Naming, S: EntryStore> Ring<J, S> {
    /// Begins the journal: whichever node makes a change from now on, its command is added. A
    /// change that is being made meanwhile may be left out, so nobody is to ask for one then. Says
    /// whether it began, which it does once.
    pub fn begin_journal(&self) -> bool {
        let journal = Mutex::new(JournalBuffer::new(self.alloc));
        self.journal.try_set(journal).is_ok()
    }

    /// The journal, if there is one and the message asks for a change.
    fn journal_for(&self, message: &Message) -> Option<&Mutex<JournalBuffer>> {
        if asks_change(message) {
            self.journal.get()
        } else {
            None
        }
    }

    /// What a node answers, whose lock is held. The change that it makes is added to the journal
    /// before that lock is let go: so the commands of a key are in the order of its changes.
    pub(crate) fn answer_of(
        &self,
        rt: &impl Wait,
        seated: &mut SeatedNode<J, S>,
        keyed: Keyed<J>,
    ) -> Option<(Target, Keyed<J>)> {
        match self.journal_for(keyed.envelope.message()) {
            Some(journal) => {
                let mut journal = lock_soon(rt, journal);
                let sent = seated.answer(&self.table, keyed, &mut journal);
                self.journal_mark.store(journal.mark(), Ordering::SeqCst);
                sent
            }
            None => seated.answer(&self.table, keyed, &mut JournalBuffer::none(self.alloc)),
        }
    }

    /// Takes out what the journal has that was not taken out yet, to be written to a file. The
    /// spare vector is emptied and comes in its place. None where no journal began.
    pub fn take_journal(&self, rt: &impl Wait, spare: Vec<u8>) -> Option<JournalPiece> {
        match self.journal.get() {
            Some(journal) => Some(lock_soon(rt, journal).take(spare)),
            None => {
                drop(spare);
                None
            }
        }
    }

    /// How many bytes were added to the journal in all; 0 where none began. It never falls, since it
    /// is stored under the journal's lock. The command of a change is within it before the change
    /// is answered: who took an answer, of whichever request, and reads it then, finds the commands
    /// of all changes that the answer may show. For the node that executed such a change raised it
    /// before its lock was let go, so before another request of that key was executed, and before
    /// any answer of either was sent; and all these orders are `SeqCst` or those of a lock or a
    /// channel.
    pub fn journal_mark(&self) -> u64 {
        self.journal_mark.load(Ordering::SeqCst)
    }
}
