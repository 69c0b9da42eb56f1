//! Redis's commands as questions to an asker.
//!
//! A [`CommandProtocol`] is what a link speaks with a client of Redis: it asks the requests of each
//! command once and in order, and adds the answers to the output. A request that got no reply is
//! given up when the next one is asked. [`serve_commands`] reads and writes for it, where nothing
//! else is to be done meanwhile.
#![tactic(auto)]

mod about;
mod answer;
mod command_protocol;
mod flow;
mod hearing;
mod informs;
pub mod laws;
mod moment;
mod requests;
mod server_info;
mod session;
mod standing;
mod subject;
mod tally;
mod telling;
mod waiting_command;

pub use command_protocol::CommandProtocol;
pub use informs::Informs;
pub use moment::Moment;
pub use server_info::ServerInfo;
pub use session::serve_commands;
