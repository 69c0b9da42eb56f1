//! The files in which the system tells of the server's process (proc(5)).

use std::fs::{self, File, Files};
use std::io;

/// `statm` and `stat` below `/proc/self`. They are opened once, since a thread of a server has no
/// handle for files; each read of one from its beginning tells what is so then.
#[derive(Drop)]
pub struct ProcessFiles {
    pub statm: File,
    pub stat: File,
}

impl ProcessFiles {
    /// Opens both.
    pub fn open<R: Files<File = File>>(rt: &R) -> io::Result<ProcessFiles> {
        Ok(ProcessFiles {
            statm: fs::open(rt, "/proc/self/statm")?,
            stat: fs::open(rt, "/proc/self/stat")?,
        })
    }
}
