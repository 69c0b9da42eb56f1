//! A stream over memory that gives and takes as its dice say.

use crate::simulated::dice::Dice;
use crate::simulated::talk::Talk;
use chord_serve::Stream;
use std::alloc::AllocError;
use std::io::{self, ErrorKind};
use std::sync::{Mutex, Wait};

/// A stream over memory that gives and takes as its dice say.
#[derive(Drop)]
pub struct Device<'t, R> {
    rt: &'t R,
    dice: Dice,
    input: Vec<u8>,
    /// How many bytes of the input were given.
    given: usize,
    /// How many more bytes its client reads.
    room: usize,
    output: &'t Mutex<Vec<u8>>,
}

impl<'t, R> Device<'t, R> {
    pub fn new(
        rt: &'t R,
        dice: Dice,
        talk: &Talk,
        output: &'t Mutex<Vec<u8>>,
    ) -> Result<Device<'t, R>, AllocError> {
        Ok(Device {
            rt,
            dice,
            input: talk.input.clone()?,
            given: 0,
            room: talk.room.unwrap_or(usize::MAX),
            output,
        })
    }
}

impl<R: Wait> Stream for Device<'_, R> {
    fn read(&mut self, buffer: &mut [u8]) -> io::Result<usize> {
        let rest = self.input.get(self.given..).unwrap_or(&[]);
        if self.dice.is_one_in(3) && !rest.is_empty() {
            return Err(io::Error::from(ErrorKind::WouldBlock));
        }
        let most = self.dice.up_to(40);
        let count = rest.len().min(buffer.len()).min(most);
        buffer[..count].copy_from_slice(&rest[..count]);
        self.given = self.given.saturating_add(count);
        Ok(count)
    }

    fn write(&mut self, bytes: &[u8]) -> io::Result<usize> {
        if self.dice.is_one_in(3) {
            return Err(io::Error::from(ErrorKind::WouldBlock));
        }
        let most = self.dice.up_to(40);
        let count = bytes.len().min(self.room).min(most);
        self.output
            .lock(self.rt)
            .extend_from_slice(&bytes[..count])?;
        self.room -= count;
        Ok(count)
    }
}
