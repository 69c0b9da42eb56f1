//! The command line of `ring`.

use crate::tests::lines::follow_lines;
use std::test::Fail;

const SAID: &str = "
# what is asked for, once
chord ring --operator 9 > operator 9: Show(Present)
chord ring --operator 9 --all > operator 9: Show(All)
chord ring --operator 9 join > operator 9: Join Tree
chord ring --operator 9 join 000000000000000000000000000000aB --store capped --limit 10 --via 2 > \
operator 9: Join Capped, id 000000000000000000000000000000ab, limit 10, via 2
chord ring --operator 9 leave 12 > operator 9: Leave(12)
chord ring --operator 9 crash 7 > operator 9: Crash(CrashRequest { node: 7, is_forced: false })
chord ring --operator 9 crash 7 --force > operator 9: Crash(CrashRequest { node: 7, is_forced: true })
chord ring --operator 9 rescue 7 > operator 9: Rescue(7)
chord ring --operator 9 stop > operator 9: Stop
# the ring is shown as often as the line says
chord ring --operator 9 --watch > operator 9: Show(Present), times 18446744073709551615
chord ring --operator 9 --times 3 > operator 9: Show(Present), times 3
chord ring --watch --times 3 --operator 9 > operator 9: Show(Present), times 3
chord ring --operator 9 --watch --all > operator 9: Show(All), times 18446744073709551615
# a copy is read of the operator, and asked of the port for clients
chord ring --operator 9 dump > operator 9: Dump
chord ring --port 7 restore > port 7: Restore
";

const REFUSED: &str = "
# an operator's port is wanted, from 1 to 65,535
chord ring > refused 2
chord ring --operator 0 > refused 2
chord ring --operator 65536 > refused 2
# only a look at the ring is done more than once, and shows all nodes
chord ring --operator 9 --times 0 > refused 2
chord ring --operator 9 --watch stop > refused 2
chord ring --operator 9 --times 1 leave 2 > refused 2
chord ring --operator 9 --times 1 rescue 7 > refused 2
chord ring --operator 9 --all rescue 7 > refused 2
chord ring --operator 9 --all dump > refused 2
# an identifier has 32 digits, only a capped store has a limit, and a node has a number
chord ring --operator 9 join 00ab > refused 2
chord ring --operator 9 join --store noted > refused 2
chord ring --operator 9 join --limit 3 > refused 2
chord ring --operator 9 join --store capped --limit -1 > refused 2
chord ring --operator 9 join --via x > refused 2
chord ring --operator 9 leave > refused 2
chord ring --operator 9 leave x > refused 2
chord ring --operator 9 leave 10000000000000000000 > refused 2
chord ring --operator 9 leave 2 --force > refused 2
chord ring --operator 9 crash > refused 2
chord ring --operator 9 rescue > refused 2
chord ring --operator 9 rescue x > refused 2
chord ring --operator 9 copy > refused 2
# a dump has the operator's port alone, and is made once
chord ring --operator 9 dump 3 > refused 2
chord ring --operator 9 --watch dump > refused 2
chord ring --operator 9 --times 2 dump > refused 2
chord ring --port 9 dump > refused 2
chord ring --port 7 --operator 9 dump > refused 2
chord ring dump > refused 2
# restore has the port for clients alone, which nothing else has
chord ring --operator 9 restore > refused 2
chord ring --port 7 --operator 9 restore > refused 2
chord ring --port 0 restore > refused 2
chord ring --port 7 --watch restore > refused 2
chord ring restore > refused 2
chord ring --port 7 > refused 2
chord ring --port 7 leave 2 > refused 2
";

const FAULTS: &str = "
usage chord ring [OPTIONS] [COMMAND] > Set
# it is told what may stand in the place of a wrong word
fault chord ring --operator 9 leave x > 2 invalid value 'x' for '<NODE>': the number of a node
fault chord ring --operator 9 join 00ab > 2 invalid value '00ab' for '[ID]': 32 hexadecimal digits
fault chord ring --operator 9 join --limit 3 > 2 '--limit <N>' is only for '--store capped'
fault chord ring --operator 9 restore > 2 restore has '--port <N>', and all else has '--operator <PORT>'
fault chord ring --operator 9 --all stop > 2 '--watch', '--times <N>' and '--all' are only for the table
";

#[test]
fn lines_of_ring(rt: HostRuntime) -> Result<(), Fail> {
    follow_lines(&rt, SAID)?;
    follow_lines(&rt, REFUSED)?;
    follow_lines(&rt, FAULTS)
}
