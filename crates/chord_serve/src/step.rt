//! One request of a session.
ghost use Rattle.std.specs.Prelude.{◌≡◌, ◌≢◌, OnOk, IfOk, IfSome};
ghost use Rattle.chord_wire.specs.Spelling.{IsWireRequest};
ghost use Rattle.chord_serve.specs.Question.{IsAnswer};
ghost use Rattle.chord_serve.specs.Output.{frame_of, after_answer};
ghost use Rattle.chord_serve.specs.Steps.{Begins, IsKept};
ghost use Rattle.chord_serve.specs.Writes.{Joins};
ghost use Rattle.chord_serve.specs.declared.asker.Asked.TheVariants as asked;

use crate::asker::{Asked, Asker};
use crate::due::Due;
use chord_map::Bytes;
use chord_session::{Move, Session};
use chord_wire::{FaultCode, WireRequest, write_fault, write_reply};
use std::alloc::{AllocError, Global};

// Adds the frame of an answer to the output, and stores the frame of a reply.
pub(crate) fn tell(
    alloc: Global,
    session: &mut Session,
    due: &mut Due,
    number: u64,
    answer: Asked,
) -> Result<(), AllocError>
    requires fits { IsAnswer answer }
    requires kept { IsKept number session.old }
    ensures due { Joins result due.old due.new (frame_of number answer) }
    ensures told { OnOk result (session.new ≡ after_answer session.old number answer) }
    ensures answered { OnOk result (answer ≢ asked.Memory) }
{
    match answer {
        Asked::Reply(reply) => {
            let frame = write_reply(alloc, number, &reply)?;
            due.add(&frame)?;
            session.keep(number, Bytes::from_vec(frame));
            Ok(())
        }
        Asked::Full => {
            let frame = write_fault(alloc, number, FaultCode::Full)?;
            due.add(&frame)
        }
        Asked::NoAnswer => {
            let frame = write_fault(alloc, number, FaultCode::NoAnswer)?;
            due.add(&frame)
        }
        Asked::Memory => Err(AllocError),
    }
}

/// Lets a request in, and asks what it calls for. None if no question is to be asked: what is to be
/// written for it is added to the output.
pub(crate) fn begin_one<A: Asker>(
    alloc: Global,
    session: &mut Session,
    due: &mut Due,
    asker: &mut A,
    wire: WireRequest,
) -> Result<Option<Asked>, AllocError>
    requires { IsWireRequest wire }
    ensures begins { Begins A.answers result session.old asker.old wire due.old due.new session.new asker.new }
    ensures fits { IfOk result (λ asked. IfSome asked IsAnswer) }
    ensures kept { IfOk result (λ asked. IfSome asked (λ _. IsKept wire.number session.new)) }
{
    let number = wire.number;
    match session.accept(&wire) {
        Move::Refuse(code) => {
            asker.refuse();
            let frame = write_fault(alloc, number, code)?;
            due.add(&frame)?;
            Ok(None)
        }
        Move::Again => match session.frame_of(number) {
            Some(frame) => {
                due.add(frame.as_slice())?;
                Ok(None)
            }
            None => unreachable!(),
        },
        Move::Ask => {
            session.add(wire.request)?;
            let answer = asker.ask(session.newest(), session.floor());
            Ok(Some(answer))
        }
        Move::Retry => {
            let answer = asker.retry(number, session.floor());
            Ok(Some(answer))
        }
    }
}
