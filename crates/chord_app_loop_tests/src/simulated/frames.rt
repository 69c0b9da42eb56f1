//! What a client sends that speaks in frames, and what is due for it.

use crate::simulated::dice::Dice;
use crate::simulated::model::{KEYS, MEMBERS, Model};
use crate::simulated::talk::Talk;
use chord_serve::Served;
use std::alloc::{AllocError, Global};

/// A request for a key and a member, each of one byte.
#[derive(Clone, Copy)]
struct Request {
    number: u64,
    inserts: bool,
    key: u8,
    member: u8,
}

/// The codes of answers: to an insert, to a remove, and of a fault.
const INSERTED: u8 = 0x81;

const REMOVED: u8 = 0x83;

const FAULT: u8 = 0xff;

/// The fault of a request that got no answer.
const NO_ANSWER: u8 = 11;

impl Request {
    fn draw(dice: &mut Dice, number: u64) -> Request {
        Request {
            number,
            inserts: dice.is_one_in(2),
            key: dice.pick(KEYS),
            member: dice.pick(MEMBERS),
        }
    }

    /// Adds the frame: its length, version 1, the operation, the number, the key and the member.
    fn write_to(self, out: &mut Vec<u8>) -> Result<(), AllocError> {
        let operation = if self.inserts { 1 } else { 3 };
        out.extend_from_slice(&[0, 0, 0, 15, 1, operation])?;
        out.extend_from_slice(&self.number.to_be_bytes())?;
        out.extend_from_slice(&[1, self.key, 0, 1, self.member])
    }

    /// Adds the frame of its answer, which is of this kind.
    fn answer(self, out: &mut Vec<u8>, kind: u8, status: u8) -> Result<(), AllocError> {
        out.extend_from_slice(&[0, 0, 0, 11, 1, kind])?;
        out.extend_from_slice(&self.number.to_be_bytes())?;
        out.push(status)?;
        Ok(())
    }
}

/// What is due for a request that came now. Says the status of its reply, if it got one.
fn tell(
    model: &mut Model,
    request: Request,
    output: &mut Vec<u8>,
) -> Result<Option<u8>, AllocError> {
    model.begin();
    if !model.is_answered(request.key) {
        request.answer(output, FAULT, NO_ANSWER)?;
        return Ok(None);
    }
    let status = u8::from(model.put(request.key, request.member, request.inserts));
    let kind = if request.inserts { INSERTED } else { REMOVED };
    request.answer(output, kind, status)?;
    Ok(Some(status))
}

/// What is due for a request that is sent again: the reply that it got, or a further try.
fn tell_again(
    model: &mut Model,
    request: Request,
    reply: Option<u8>,
    output: &mut Vec<u8>,
) -> Result<(), AllocError> {
    match reply {
        Some(status) => {
            let kind = if request.inserts { INSERTED } else { REMOVED };
            request.answer(output, kind, status)
        }
        None => {
            tell(model, request, output)?;
            Ok(())
        }
    }
}

/// What a client sends, some requests, and what is due for it.
pub fn frames(alloc: Global, dice: &mut Dice) -> Result<Talk, AllocError> {
    let (mut input, mut output) = (Vec::new(alloc), Vec::new(alloc));
    let mut model = Model::new();
    for number in 1..=dice.below(40) {
        let request = Request::draw(dice, number);
        request.write_to(&mut input)?;
        model.asked = model.asked.saturating_add(1);
        let reply = tell(&mut model, request, &mut output)?;
        if dice.is_one_in(3) {
            request.write_to(&mut input)?;
            tell_again(&mut model, request, reply, &mut output)?;
        }
    }
    let is_cut = dice.is_one_in(3);
    if is_cut {
        input.extend_from_slice(&[0, 0, 0, 15, 1])?;
    }
    Ok(Talk {
        input,
        output,
        asked: model.asked,
        end: if is_cut {
            Served::Truncated
        } else {
            Served::Ended
        },
        room: Talk::room(dice),
    })
}
