//! Answers wait until the changes are written that they may show.
ghost use Rattle.std.specs.Prelude.{◌≡◌};

use crate::askers::{NO_TROUBLE, Scripted, server};
use chord_resp_serve::CommandProtocol;
use chord_serve::{Link, Marks, Pair, Protocol, Stream};
use std::alloc::Global;
use std::io::{self, ErrorKind};
use std::test::Fail;

/// Changes were made up to this mark.
#[derive(Clone, Copy)]
struct Changes {
    mark: u64,
}

impl Marks for Changes {
    ghost tells = { λ changes mark. mark ≡ changes.mark };

    fn mark(&self) -> u64 {
        self.mark
    }
}

/// What a link did that was answered a command at the first mark, and one more at the second.
#[derive(Clone, Copy, Debug, PartialEq, Eq)]
struct Seen {
    /// What came of writing before and at the first mark, and again before the second.
    early: Option<ErrorKind>,
    written: Option<usize>,
    between: Option<ErrorKind>,
    last: Option<usize>,
    mark: u64,
}

fn refused(wrote: io::Result<usize>) -> Option<ErrorKind> {
    match wrote {
        Ok(_) => None,
        Err(error) => Some(error.kind()),
    }
}

/// What a link does that reads a command of six bytes twice.
fn seen_of<P: Protocol, S: Stream>(link: &mut Link<P, S>) -> io::Result<Seen> {
    let (first, second) = (10u64, 12u64);
    let mut buffer = [0u8; 6];
    link.advance(&Changes { mark: first });
    link.read_from(&mut buffer)?;
    link.advance(&Changes { mark: first });
    let early = refused(link.write_to(first - 1));
    let written = link.write_to(first).ok();
    link.read_from(&mut buffer)?;
    link.advance(&Changes { mark: second });
    let between = refused(link.write_to(first));
    let last = link.write_to(second).ok();
    Ok(Seen {
        early,
        written,
        between,
        last,
        mark: link.mark(),
    })
}

fn wait_for_marks(alloc: Global) -> io::Result<Seen> {
    let mut output = Vec::new(alloc);
    let asker = Scripted::new(alloc, NO_TROUBLE);
    let protocol = CommandProtocol::new(alloc, server(), asker);
    let stream = Pair {
        reader: b"PING\r\nPING\r\n".as_slice(),
        writer: &mut output,
    };
    let mut link = Link::new(alloc, protocol, stream);
    let seen = seen_of(&mut link);
    drop(link.into_protocol());
    drop(output);
    seen
}

#[test]
fn answers_wait_for_their_changes(rt: HostRuntime) -> Result<(), Fail> {
    let seen = wait_for_marks(rt.alloc())?;
    assert!(&rt;
        seen == Seen {
            early: Some(ErrorKind::WouldBlock),
            written: Some(7),
            between: Some(ErrorKind::WouldBlock),
            last: Some(7),
            mark: 12,
        },
        "each of the two answers has seven bytes"
    );
    Ok(())
}
