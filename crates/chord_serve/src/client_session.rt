//! What a client's session has beyond its connections.
ghost use Rattle.std.specs.Prelude.{◌≡◌, ◌≢◌, None, Some, IfOk, IfSome, OnOk};
ghost use Rattle.chord_wire.specs.Spelling.{IsWireRequest};
ghost use Rattle.chord_session.specs.Session.{first_state, last_number, bytes_held};
ghost use Rattle.chord_serve.specs.Output.{after_answer, frame_of};
ghost use Rattle.chord_serve.specs.Question.{IsAnswer};
ghost use Rattle.chord_serve.specs.Steps.{Begins, IsKept};
ghost use Rattle.chord_serve.specs.Writes.{Joins};
ghost use Rattle.chord_serve.specs.declared.asker.Asked.TheVariants.{Memory};

use crate::asker::{Asked, Asker};
use crate::due::Due;
use crate::step::{begin_one, tell};
use chord_session::Session;
use chord_wire::WireRequest;
use std::alloc::{AllocError, Global};

/// The version of its requests, once that is known; its numbers, with the answers that are kept;
/// and who answers new ones.
#[derive(Drop)]
pub struct ClientSession<A> {
    pub(crate) version: Option<u8>,
    pub(crate) numbers: Session,
    pub(crate) asker: A,
}

impl<A> ClientSession<A> {
    /// The session of a connection that begins without an open, so it ends with the connection.
    pub fn of_connection(alloc: Global, asker: A) -> ClientSession<A>
        ensures version { result.version ≡ None }
        ensures numbers { result.numbers ≡ first_state }
        ensures asker { result.asker ≡ asker }
    {
        ClientSession {
            version: None,
            numbers: Session::new(alloc),
            asker,
        }
    }

    /// A session that an open begins. It is of version 2.
    pub fn new(alloc: Global, asker: A) -> ClientSession<A>
        ensures version { result.version ≡ Some 2 }
        ensures numbers { result.numbers ≡ first_state }
        ensures asker { result.asker ≡ asker }
    {
        ClientSession {
            version: Some(2),
            numbers: Session::new(alloc),
            asker,
        }
    }

    /// The greatest floor accepted.
    pub fn floor(&self) -> u64
        ensures { result ≡ self.now.numbers.floor }
    {
        self.numbers.floor()
    }

    /// The last number of which a request was read whole.
    pub fn last(&self) -> u64
        ensures { result ≡ last_number self.now.numbers }
    {
        self.numbers.last()
    }

    /// How many bytes its kept answers have; `u64::MAX` stands for more.
    pub fn bytes(&self) -> u64
        ensures { result ≡ bytes_held self.now.numbers }
    {
        self.numbers.bytes()
    }

    /// The asker of a session that is over.
    pub fn into_asker(self) -> A
        ensures { result ≡ self.asker }
    {
        let ClientSession {
            version: _,
            numbers,
            asker,
        } = self;
        drop(numbers);
        asker
    }
}

impl<A: Asker> ClientSession<A> {
    /// Lets a request in, and asks what it calls for. None if no question is to be asked: what is
    /// to be written for it is added to the output.
    pub(crate) fn begin(
        &mut self,
        alloc: Global,
        due: &mut Due,
        wire: WireRequest,
    ) -> Result<Option<Asked>, AllocError>
        requires { IsWireRequest wire }
        ensures begins { Begins A.answers result self.old.numbers self.old.asker wire due.old due.new self.new.numbers self.new.asker }
        ensures version { self.new.version ≡ Some wire.version }
        ensures fits { IfOk result (λ asked. IfSome asked IsAnswer) }
        ensures kept { IfOk result (λ asked. IfSome asked (λ _. IsKept wire.number self.new.numbers)) }
    {
        self.version = Some(wire.version);
        begin_one(alloc, &mut self.numbers, due, &mut self.asker, wire)
    }

    /// Adds the frame of an answer to the output, and stores the frame of a reply.
    pub(crate) fn tell(
        &mut self,
        alloc: Global,
        due: &mut Due,
        number: u64,
        answer: Asked,
    ) -> Result<(), AllocError>
        requires fits { IsAnswer answer }
        requires kept { IsKept number self.old.numbers }
        ensures due { Joins result due.old due.new (frame_of number answer) }
        ensures told { OnOk result (self.new ≡ record self.old { numbers = after_answer self.old.numbers number answer }) }
        ensures asker { self.new.asker ≡ self.old.asker }
        ensures version { self.new.version ≡ self.old.version }
        ensures answered { OnOk result (answer ≢ Memory) }
    {
        tell(alloc, &mut self.numbers, due, number, answer)
    }
}
