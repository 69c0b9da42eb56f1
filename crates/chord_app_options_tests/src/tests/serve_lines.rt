//! The command line of `serve`.

use crate::checks::check;
use crate::tests::lines::follow_lines;
use chord_app_options::commands;
use std::alloc::Global;
use std::test::Fail;

/// What each line says; of what a line need not name only what is not usual: 300 seconds to be idle,
/// 600 to be kept, 256 MB of buffers, no journal, no notes.
const SAID: &str = "
# serve stays, unless --connections says how many it serves
chord serve --plan p --port 7 > plan p, port 7
chord serve --plan p --port 7 --stay > plan p, port 7
chord serve --plan p --port 7 --stay --notes > plan p, port 7, notes
chord serve --plan p --port 7 --connections 9 > plan p, port 7, connections 9
# it ends with a terminal's input, or with any where the line says so
chord serve --plan p --port 7 --until-input-ends > plan p, port 7, ends with its input
# without a plan there is one node, or as many as the line says, and 512 callers
chord serve --redis 6379 > nodes 1, redis 6379, callers 512
chord serve --redis 6379 --nodes 64 --callers 9 > nodes 64, redis 6379, callers 9
chord serve --redis 6379 --nodes 2 --connections 3 > nodes 2, redis 6379, connections 3, callers 512
chord serve --redis 6379 --nodes 0 > refused 2
chord serve --redis 6379 --nodes 65 > refused 2
# at port 0 the system picks one
chord serve --plan p --port 0 --stay > plan p, port 0
# a client may be idle for 300 seconds, or for 1 to 86,400
chord serve --plan p --port 7 --stay --idle 1 > plan p, port 7, idle 1
chord serve --plan p --port 7 --stay --idle 86400 > plan p, port 7, idle 86400
chord serve --plan p --port 7 --stay --idle 0 > refused 2
chord serve --plan p --port 7 --stay --idle 86401 > refused 2
# sessions without a connection are kept for 600 seconds, or for 1 to 86,400; for 0 none is kept
chord serve --plan p --port 7 --stay --keep 0 > plan p, port 7, keep 0
chord serve --plan p --port 7 --stay --keep 86400 > plan p, port 7, keep 86400
chord serve --plan p --port 7 --stay --keep 86401 > refused 2
# Redis's clients have a port of their own, beside the other one or alone
chord serve --plan p --redis 6379 --port 7 --stay > plan p, port 7, redis 6379
chord serve --plan p --redis 0 --stay > plan p, redis 0
# a server has an operator only where its line says so
chord serve --plan p --port 7 --stay --operator 0 > plan p, port 7, operator 0
chord serve --plan p --port 7 --stay --operator 65536 > refused 2
# a server that stays has the plan's numbers of nodes and callers, or those of its line
chord serve --plan p --port 7 --stay --slots 9 > plan p, port 7, slots 9
chord serve --plan p --port 7 --stay --callers 1 --slots 1 > plan p, port 7, slots 1, callers 1
chord serve --plan p --port 7 --stay --slots 4096 > plan p, port 7, slots 4096
chord serve --plan p --port 7 --stay --callers 16384 > plan p, port 7, callers 16384
chord serve --plan p --port 7 --stay --slots 0 > refused 2
chord serve --plan p --port 7 --stay --slots 4097 > refused 2
chord serve --plan p --port 7 --stay --callers 0 > refused 2
chord serve --plan p --port 7 --stay --callers 16385 > refused 2
# connections hold 256 MB, or 1 to 65,536
chord serve --plan p --port 7 --stay --buffers 1 > plan p, port 7, buffers 1048576
chord serve --plan p --port 7 --stay --buffers 65536 > plan p, port 7, buffers 68719476736
chord serve --plan p --port 7 --stay --buffers 0 > refused 2
chord serve --plan p --port 7 --stay --buffers 65537 > refused 2
# a journal is brought to the disk each second, or as the line says
chord serve --plan p --port 7 --journal f > plan p, port 7, journal f Second
chord serve --plan p --port 7 --journal f --sync second > plan p, port 7, journal f Second
chord serve --plan p --port 7 --journal f --sync always > plan p, port 7, journal f Always
chord serve --plan p --port 7 --journal f --sync never > plan p, port 7, journal f Never
chord serve --plan p --port 7 --journal f --sync now > refused 2
chord serve --plan p --port 7 --journal > refused 2
";

const FAULTS: &str = "
# serve wants a port of at least one protocol
usage chord serve <--port <N>|--redis <N>> > Set
fault chord serve > 2 the following required arguments were not provided:|  <--port <N>|--redis <N>>
usage chord serve --stay <--port <N>|--redis <N>> > Set
fault chord serve --stay > 2 the following required arguments were not provided:|  <--port <N>|--redis <N>>
# a plan has its nodes
usage chord serve --plan <FILE> <--port <N>|--redis <N>> > Set
fault chord serve --plan p --nodes 2 --port 7 > 2 the argument '--plan <FILE>' cannot be used with '--nodes <N>'
# what is for servers that stay
usage chord serve --plan <FILE> --connections <K> <--port <N>|--redis <N>> > Set
fault chord serve --plan p --port 7 --connections 1 --stay > 2 the argument '--connections <K>' cannot be used with '--stay'
fault chord serve --plan p --port 7 --connections 1 --idle 2 > 2 the argument '--connections <K>' cannot be used with '--idle <SECONDS>'
fault chord serve --plan p --port 7 --connections 1 --keep 2 > 2 the argument '--connections <K>' cannot be used with '--keep <SECONDS>'
fault chord serve --plan p --port 7 --connections 1 --operator 2 > 2 the argument '--connections <K>' cannot be used with '--operator <N>'
fault chord serve --plan p --port 7 --connections 1 --slots 2 > 2 the argument '--connections <K>' cannot be used with '--slots <N>'
fault chord serve --plan p --port 7 --connections 1 --callers 2 > 2 the argument '--connections <K>' cannot be used with '--callers <N>'
fault chord serve --plan p --port 7 --connections 1 --buffers 2 > 2 the argument '--connections <K>' cannot be used with '--buffers <MB>'
fault chord serve --plan p --port 7 --connections 1 --journal f > 2 the argument '--connections <K>' cannot be used with '--journal <FILE>'
fault chord serve --plan p --port 7 --connections 1 --until-input-ends > 2 the argument '--connections <K>' cannot be used with '--until-input-ends'
# a number that is none of its option's
usage chord serve [OPTIONS] <--port <N>|--redis <N>> > Set
fault chord serve --plan p --port -1 --stay > 2 invalid value '-1' for '--port <N>': a number from 0 to 65535
";

const NUMBERS: &str = "
# ports and connections are numbers from 1 to 65,535
small 1 > Some(1)
small 65535 > Some(65535)
small \"\" > None
small 0 > None
small 65536 > None
small -1 > None
small x > None
small \"1 \" > None
# both limits are allowed
number 3..9 2 > None
number 3..9 3 > Some(3)
number 3..9 +007 > Some(7)
number 3..9 9 > Some(9)
number 3..9 10 > None
number 3..9 18446744073709551616 > None
number 0..18446744073709551615 18446744073709551615 > Some(18446744073709551615)
";

#[test]
fn lines_of_serve(rt: HostRuntime) -> Result<(), Fail> {
    follow_lines(&rt, SAID)?;
    follow_lines(&rt, FAULTS)?;
    follow_lines(&rt, NUMBERS)
}

const HELP: &str = concat!(
    "Serves clients over loopback, and writes how each connection ended\n",
    "\n",
    "Usage: chord serve [OPTIONS] <--port <N>|--redis <N>>\n",
    "\n",
    "Options:\n",
    "      --plan <FILE>       The ring's numbers and nodes, as TOML\n",
    "      --nodes <N>         Without a plan: how many nodes divide the circle evenly, 1 to 64, else 1\n",
    "      --port <N>          The port on 127.0.0.1, 1 to 65535, or 0 for one that the system picks\n",
    "      --redis <N>         The port for Redis's clients, as --port\n",
    "      --connections <K>   How many connections are served, 1 to 65535; else it stays\n",
    "      --stay              Serves until it is stopped, as without --connections\n",
    "      --until-input-ends  Serves until standard input ends, as where that is a terminal, or until it is stopped\n",
    "      --notes             Notes on standard error how each connection ends, as it ends\n",
    "      --idle <SECONDS>    If it stays: how long a client may be idle, 1 to 86400, else 300\n",
    "      --keep <SECONDS>    If it stays: how long a session without a connection is kept, 0 to 86400, else 600\n",
    "      --operator <N>      If it stays: an operator's port on 127.0.0.1, 1 to 65535, or 0 for any that is free\n",
    "      --slots <N>         If it stays: how many nodes there may be at once, 1 to 4096, else the plan's\n",
    "      --callers <N>       If it stays: how many callers there may be, 1 to 16384, else the plan's\n",
    "      --buffers <MB>      If it stays: how many megabytes all connections may hold, 1 to 65536, else 256\n",
    "      --journal <FILE>    If it stays: the file that keeps all changes, loaded at the start\n",
    "      --sync <WHEN>       When the journal is brought to the disk, else second [possible values: always, second, never]\n",
    "  -h, --help              Print help\n",
);

/// The exit status of the help of `serve`, and whether it has this text.
fn has_help(alloc: Global, wanted: &str) -> Option<(i32, bool)> {
    let words = ["chord", "serve", "--help"];
    let help = commands(alloc).ok()?.try_get_matches_from(&words).err()?;
    let status = help.exit_code();
    let text = help.to_string(alloc);
    drop(help);
    Some((status, text.ok()?.as_str() == wanted))
}

#[test]
fn help_of_serve(rt: HostRuntime) {
    check!(&rt; has_help(rt.alloc(), HELP) == Some((0, true)));
}
