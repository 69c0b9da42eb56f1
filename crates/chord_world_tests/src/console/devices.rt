//! A session whose input or output fails.

use crate::checks::check;
use crate::console::one_pair;
use chord_app_text::{Fault, Finish};
use chord_app_world::world;
use std::alloc::{AllocError, Global};
use std::io::{self, Read};
use std::test::Fail;

/// A reader that gives these bytes, and then fails.
#[derive(Drop)]
struct Failing<'a> {
    bytes: &'a [u8],
}

impl Read for Failing<'_> {
    fn read(&mut self, buf: &mut [u8]) -> io::Result<usize> {
        if self.bytes.is_empty() {
            return Err(io::Error::from(io::ErrorKind::TimedOut));
        }
        self.bytes.read(buf)
    }
}

const TWO_LINES: &[u8] = b"create 40000000000000000000000000000000\ncaller\n";

const TWO_LINES_WRITE: &[u8] = b"node 0\ncaller 0\n";

/// How a session ends whose input fails behind two lines, and whether it wrote theirs.
fn fails_to_read(alloc: Global) -> Result<(Finish, bool), AllocError> {
    let stores = one_pair(alloc)?;
    let mut reader = Failing { bytes: TWO_LINES };
    let mut written: Vec<u8> = Vec::new(alloc);
    let finish = world(alloc, stores, &mut reader, &mut written);
    let is_written = written.as_slice() == TWO_LINES_WRITE;
    drop(written);
    Ok((finish, is_written))
}

/// How a session ends whose output has room for ten bytes.
fn fails_to_write(alloc: Global) -> Result<Finish, AllocError> {
    let stores = one_pair(alloc)?;
    let mut reader = TWO_LINES;
    let mut room = [0u8; 10];
    let mut writer = room.as_mut_slice();
    Ok(world(alloc, stores, &mut reader, &mut writer))
}

#[test]
fn failures_of_input_and_output(rt: HostRuntime) -> Result<(), Fail> {
    let read = fails_to_read(rt.alloc())?;
    check!(&rt;
        read == (Finish::Fault(Fault::Read), true),
        "the lines before a failed read are done"
    );
    let written = fails_to_write(rt.alloc())?;
    check!(&rt;
        written == Finish::Fault(Fault::Write),
        "a line that is not written ends the session"
    );
    Ok(())
}
