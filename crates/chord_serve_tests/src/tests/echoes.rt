//! What drives a protocol, over one that says what it heard.
ghost use Rattle.std.specs.Prelude.{◌≡◌, ◌++◌, ◌==◌, [], length};
ghost use Rattle.chord_serve.specs.declared.served.Served.TheVariants.{Memory};

use chord_serve::{Due, Protocol, ReadSize, Served, Step, drive};
use std::alloc::{AllocError, Global};
use std::marker::Model;

/// Says the bytes that it heard.
#[derive(Drop)]
struct Echo {
    heard: Vec<u8>,
}

impl Model for Echo {
    ghost use Rattle.std.specs.Prelude.{ℕ, List};

    ghost Value = { List ℕ };

    ghost view = { λ echo. echo.heard.items };
}

impl Protocol for Echo {
    ghost hears = { λ heard piece now. now ≡ heard ++ piece };

    ghost says = { λ heard bytes now. (bytes ≡ heard) × (now ≡ []) };

    ghost stops = { λ end heard bytes now. (end ≡ Memory) × (bytes ≡ []) };

    ghost rests = { λ heard. heard ≡ [] };

    ghost idle = { λ heard. Unit {0} };

    ghost begun = { λ heard now. ⊥ };

    ghost between = { λ heard. length heard == 0 };

    ghost unread = { λ heard. length heard };

    ghost partial = { λ heard. length heard };

    fn is_between(&self) -> bool {
        self.heard.len() == 0
    }

    fn partial(&self) -> u64 {
        self.heard.len() as u64
    }

    fn feed(&mut self, piece: &[u8]) -> Result<(), AllocError> {
        self.heard.extend_from_slice(piece)
    }

    fn answer_next(
        &mut self,
        _alloc: Global,
        due: &mut Due,
        _may_wait: bool,
    ) -> Result<Step, Served> {
        if self.heard.is_empty() {
            return Ok(Step::Nothing);
        }
        if due.add(&self.heard).is_err() {
            return Err(Served::Memory);
        }
        self.heard.clear();
        Ok(Step::Answered)
    }
}

/// How a connection over `input` ended that had heard `heard` before, by at most this many reads,
/// and what it wrote, with zeros behind it.
fn driven(
    alloc: Global,
    heard: &[u8],
    input: &[u8],
    turns: u64,
) -> Result<(Served, [u8; 6]), AllocError> {
    let mut room = [0u8; 6];
    let (mut reader, mut writer) = (input, room.as_mut_slice());
    let heard = Vec::from_slice(alloc, heard)?;
    let mut echo = Echo { heard };
    let small = ReadSize::Small;
    let end = drive(alloc, &mut echo, &mut reader, &mut writer, small, turns);
    drop(echo);
    Ok((end, room))
}

#[test]
fn what_is_heard_is_said_before_what_is_read(rt: HostRuntime) {
    for (heard, input, turns, end, written) in [
        (
            b"".as_slice(),
            b"abc".as_slice(),
            0,
            Served::TurnsSpent,
            *b"\0\0\0\0\0\0",
        ),
        (b"", b"abc", 1, Served::TurnsSpent, *b"abc\0\0\0"),
        (b"", b"abc", 2, Served::Ended, *b"abc\0\0\0"),
        (b"xy", b"abc", 0, Served::TurnsSpent, *b"xy\0\0\0\0"),
        (b"xy", b"abc", 1, Served::TurnsSpent, *b"xyabc\0"),
        (b"xy", b"abc", 2, Served::Ended, *b"xyabc\0"),
        // There is no room for a seventh letter.
        (b"", b"abcdefg", 2, Served::Write, *b"abcdef"),
    ] {
        let seen = driven(rt.alloc(), heard, input, turns).expect(&rt, "memory for two letters");
        assert!(rt;
            seen == (end, written),
            "{heard:?}, then {input:?} in {turns} turns"
        );
    }
}
