//! What the system tells of the server's process (proc(5)).

use chord_app_operator::ProcessSight;
use chord_app_sockets::ProcessFiles;
use std::fs::File;
use std::os::unix::fs::FileExt;

/// How many bytes a page of memory has.
const PAGE_BYTES: u64 = 4_096;

/// How the line of `limits` begins that tells how many files a process may have open at once.
const OPEN_FILES: &str = "Max open files";

/// How many milliseconds a tick of the processor's time has.
const TICK_MILLISECONDS: u64 = 10;

/// How many bytes of a file are read at most.
const FILE_BYTES: usize = 1_024;

/// Where the name of the program ends in `stat`, and how many words behind it the ticks in the
/// program stand. Those in the system come next.
const NAME_END: &str = ") ";

const USER_TICKS: usize = 11;

/// How many bytes of memory a process has, by its `statm`: its second word tells the pages.
pub fn resident_of(statm: &str) -> Option<u64> {
    let pages = statm.split(' ').nth(1)?.parse::<u64>().ok()?;
    Some(pages.saturating_mul(PAGE_BYTES))
}

/// How many milliseconds of a processor a process took, by its `stat`.
pub fn processor_ms_of(stat: &str) -> Option<u64> {
    let (_, behind) = stat.rsplit_once(NAME_END)?;
    let mut words = behind.split(' ').skip(USER_TICKS);
    let user = words.next()?.parse::<u64>().ok()?;
    let system = words.next()?.parse::<u64>().ok()?;
    Some(
        user.saturating_add(system)
            .saturating_mul(TICK_MILLISECONDS),
    )
}

/// How many files a process may have open at once, by its `limits`: the first number of their line.
/// None if there is no limit.
pub fn open_files_of(limits: &str) -> Option<u64> {
    let numbers = limits
        .lines()
        .find_map(|line| line.strip_prefix(OPEN_FILES))?;
    numbers.split_whitespace().next()?.parse::<u64>().ok()
}

/// What a file has now, if it is text.
fn text_in<'b>(file: &File, bytes: &'b mut [u8; FILE_BYTES]) -> Option<&'b str> {
    let count = file.read_at(bytes, 0).ok()?;
    str::from_utf8(bytes.get(..count)?).ok()
}

/// How many bytes of memory the process has now, by this `statm`.
fn resident(statm: &File) -> Option<u64> {
    let mut bytes = [0u8; FILE_BYTES];
    resident_of(text_in(statm, &mut bytes)?)
}

/// How many milliseconds of a processor the process took by now, by this `stat`.
fn processor_ms(stat: &File) -> Option<u64> {
    let mut bytes = [0u8; FILE_BYTES];
    processor_ms_of(text_in(stat, &mut bytes)?)
}

/// How many files the process may have open at once, by this `limits`.
pub fn open_files(limits: &File) -> Option<u64> {
    let mut bytes = [0u8; FILE_BYTES];
    open_files_of(text_in(limits, &mut bytes)?)
}

/// What the system tells of the process now.
pub fn process_sight(files: Option<&ProcessFiles>) -> ProcessSight {
    let Some(files) = files else {
        return ProcessSight::default();
    };
    ProcessSight {
        resident: resident(&files.statm).unwrap_or(0),
        processor_ms: processor_ms(&files.stat).unwrap_or(0),
    }
}
