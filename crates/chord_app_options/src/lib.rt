//! The command lines of the program `chord`: each command with its options, and the values that a
//! line's words give them.
//!
//! [`commands`] has all of them, for `clap` to match words with. From the matches [`stores_of`],
//! [`plan_path_of`], [`serve_line_of`], [`client_options_of`], [`request_of`], [`load_of`] and
//! [`ring_task_of`] make values, or the fault of a wrong word, which [`print_fault`] prints.
//! [`start_ask`], [`start_load`] and [`start_ring`] do their commands.
#![tactic(auto)]

mod ask;
mod faults;
mod load;
mod number;
mod parts;
mod program;
mod ring;
mod run;
mod serve;
mod shared;
mod world;

pub use ask::{client_options_of, request_of, start_ask};
pub use faults::{print_fault, write_fault};
pub use load::{load_of, start_load};
pub use number::{number_from, small_number};
pub use program::commands;
pub use ring::{ring_task_of, start_ring};
pub use serve::{RingSource, ServeLine, serve_line_of};
pub use shared::{plan_path_of, wants_session};
pub use world::{names_stores, stores_of};
