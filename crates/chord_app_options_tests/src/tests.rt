//! The command lines.

mod ask_lines;
mod command;
mod lines;
mod load_lines;
mod ring_lines;
mod saying;
mod serve_lines;

use crate::tests::lines::follow_lines;
use std::test::Fail;

const LINES: &str = "
# a command line without a command is refused
text chord > 2 error: 'chord' requires a subcommand but one was not provided|  [subcommands: \
world, run, serve, ask, load, ring, help]||Usage: chord <COMMAND>||For more information, try \
'--help'.|
text chord --version > 0 chord 0.1.0|

# the letters of 1 to 64 stores
stores t > Yes
stores tltltltl > Yes
stores lnct > Yes
stores {64t} > Yes
stores \"\" > No
stores tx > No
stores T > No
stores {65t} > No
usage chord world [OPTIONS] > Set
fault chord world --stores x > 2 invalid value 'x' for '--stores <WORD>': 1 to 64 of the letters \
t, l, n and c
# a line that names no stores has four trees and four lists in turn
chord world --stores nc > stores nc
chord world > stores tltltltl

# the path of a plan
chord run --plan p.toml > plan p.toml
chord serve --plan p.toml --port 0 --stay > plan p.toml, port 0
";

/// Which stream gets the text of a line that asks for help or is wrong.
const STREAMS: &str = "
# help and the version go to the output alone
write 4000x4000 chord --version > Ok(Done), output
write 4000x4000 chord serve --help > Ok(Done), output
# faults go to the errors alone
write 4000x4000 chord > Ok(BadCommandLine), errors
write 4000x4000 chord ask --port 1 insert a > Ok(BadCommandLine), errors
# nothing is written where memory was refused
write 4000x4000 memory > Err(OutOfMemory)
# a stream that fails ends the command, where it was to get the text
write 4x4000 chord --version > Err(Fault(Write)), output of something else
write 4000x4 chord --version > Ok(Done), output
write 4x4000 chord > Ok(BadCommandLine), errors
write 4000x4 chord > Err(Fault(Write)), errors of something else
# a port is wanted; help is no fault
print chord serve > Ok(BadCommandLine)
print chord serve --help > Ok(Done)
";

#[test]
fn lines_without_a_file_of_their_own(rt: HostRuntime) -> Result<(), Fail> {
    follow_lines(&rt, LINES)
}

#[test]
fn streams_of_help_and_faults(rt: HostRuntime) -> Result<(), Fail> {
    follow_lines(&rt, STREAMS)
}
