//! Worked sessions, over memory.

mod client_sessions;
mod echoes;
pub mod flying;
mod going_on;
pub mod in_flight;
mod marks;
mod resumed;
pub mod serving;
pub mod sessions;
mod sessions_alone;
mod tabled;
mod visiting;
