//! What tests of servers share: a plan of two nodes, a server of it beside who asks it, and what is
//! found when both are done.
#![tactic(auto)]

mod handle;
mod plans;
mod players;
mod servers;

pub use chord_app_plan_testkit::{TWO_NODES, changed, plan_of};
pub use chord_serve_testkit::{
    Act, Acts, Addresses, Answer, Ask, NOTHING, Script, ask, bound, do_acts, do_acts_at, expect,
    expect_end, fill, insert, leave, reply_frame, request_frame, retrieve,
};
pub use handle::Handle;
pub use plans::{plan_with, two_stores};
pub use players::{
    Played, WAITS, follow, follow_noted, follow_to_the_end, serve_beside, stay_beside,
};
pub use servers::{
    Ending, Found, GOOD, Listeners, SMALL, Size, Speech, Written, all_bound, end_waiting, look_at,
    serve_at,
};
