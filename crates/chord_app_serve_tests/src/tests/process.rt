//! What the system tells of the process, and how long requests took.

use crate::checks::check;
use chord_app_serve::{
    open_files, open_files_of, place_of, process_sight, processor_ms_of, resident_of,
};
use chord_app_sockets::ProcessFiles;
use std::fs::File;

/// A `stat` as proc(5) has it: its words 14 and 15 are ticks, of which a second has 100. The name
/// of the program, in brackets, may have spaces and brackets itself.
const STAT: &str = "7 (a (b) c) S 1 7 7 0 -1 4194560 100 0 0 0 321 54 0 0 20 0 9 0 33 1000 250";

/// Some lines of `limits`: the first number of a line is the limit, the second how far the process
/// may raise it.
const LIMITS: &str =
    "Limit                     Soft Limit           Hard Limit           Units     \n\
Max processes             93905                93905                processes \n\
Max open files            1024                 524288               files     \n\
Max locked memory         8388608              8388608              bytes     \n";

#[test]
fn files_of_the_system_are_read(rt: HostRuntime) {
    check!(&rt; resident_of("2500 250 90 100 0 800 0\n") == Some(250 * 4_096));
    check!(&rt; resident_of("2500") == None, "it has one word");
    check!(&rt; resident_of("2500 many") == None, "the second is no number");
    check!(&rt; processor_ms_of(STAT) == Some(3_750));
    check!(&rt; processor_ms_of("7 (a) S 1") == None, "it has too few words");
    check!(&rt; open_files_of(LIMITS) == Some(1_024));
    check!(&rt; open_files_of("Max open files  unlimited  unlimited  files\n") == None);
    check!(&rt; open_files_of("Max processes  7  7  processes\n") == None, "it has no such line");
}

#[test]
fn this_process_is_seen(rt: HostRuntime) {
    let files = ProcessFiles::open(&rt).expect(&rt, "the files of the system");
    let seen = process_sight(Some(&files));
    let again = process_sight(Some(&files));
    drop(files);
    check!(&rt; seen.resident > 65_536, "a program has more memory");
    check!(&rt; again.resident > 65_536, "a file is read from its beginning");
    check!(&rt; process_sight(None).resident == 0, "nothing is told");
    let limits = File::open(&rt, "/proc/self/limits").expect(&rt, "the limits");
    let most = open_files(&limits);
    drop(limits);
    check!(&rt; most.unwrap_or(u64::MAX) > 8, "this test has some files open");
}

#[test]
fn times_are_counted_by_bounds(rt: HostRuntime) {
    check!(&rt; place_of(0, &[50, 100]) == Some(0));
    check!(&rt; place_of(50, &[50, 100]) == Some(0), "a bound counts in");
    check!(&rt; place_of(51, &[50, 100]) == Some(1));
    check!(&rt; place_of(101, &[50, 100]) == None, "it is above all bounds");
}
