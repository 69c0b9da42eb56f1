//! What is done at most once a second.

use crate::checks::check;
use chord_app_sockets::OncePerSecond;

#[test]
fn one_passes_a_second(rt: HostRuntime) {
    let once = OncePerSecond::new();
    for (now_ms, passes) in [
        (0, true),
        (0, false),
        (999, false),
        (1_000, true),
        (1_999, false),
        (5_500, true),
        (6_000, false),
        (6_500, true),
        (u64::MAX, true),
    ] {
        assert!(rt; once.passes(now_ms) == passes, "at {now_ms}");
    }
    check!(&rt; OncePerSecond::new().passes(7), "the first one, at any time");
}
