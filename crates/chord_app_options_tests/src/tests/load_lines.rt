//! The command line of `load`.

use crate::tests::lines::follow_lines;
use std::test::Fail;

const LINES: &str = "
# without options 1,000 keys are retrieved in turn for 10 seconds, one request at a time
chord load --port 1 > port 1, 1x1, 1000x16, Retrieve Seconds(10)
# a number of requests comes before seconds
chord load --port 1 --kind insert --requests 7 > port 1, 1x1, 1000x16, Insert Requests(7)
chord load --no-session --port 7001 > port 7001, 1x1, 1000x16, Retrieve Seconds(10), no session
# connections are cut where the line says so, behind requests that a seed picks, which is 1 else
chord load --port 1 --seed 7 > port 1, 1x1, 1000x16, Retrieve Seconds(10)
chord load --port 1 --drop 50 > port 1, 1x1, 1000x16, Retrieve Seconds(10), drop 50, seed 1
chord load --port 1 --drop 1 --seed 18446744073709551615 --requests 2 > port 1, 1x1, 1000x16, \
Retrieve Requests(2), drop 1, seed 18446744073709551615
# each number has its limits
chord load --port 1 --connections 65 > refused 2
chord load --port 1 --in-flight 17 > refused 2
chord load --port 1 --keys 0 > refused 2
chord load --port 1 --value-size 4097 > refused 2
chord load --port 1 --kind remove > refused 2
chord load --port 1 --seconds 3601 > refused 2
chord load --port 1 --requests 0 > refused 2
chord load --port 1 --drop 0 > refused 2
chord load --port 1 --drop 1000001 > refused 2
chord load --port 1 --drop 5 --seed -1 > refused 2
# who is cut goes on in a session, with values that nobody else inserts
chord load --port 1 --drop 5 --no-session > refused 2
chord load --port 1 --drop 5 --kind insert --value-size 15 > refused 2
usage chord load [OPTIONS] --port <N> > Set
fault chord load --port 1 --value-size 4097 > 2 invalid value '4097' for '--value-size <BYTES>': \
a number from 0 to 4096
";

#[test]
fn lines_of_load(rt: HostRuntime) -> Result<(), Fail> {
    follow_lines(&rt, LINES)
}
