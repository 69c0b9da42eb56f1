//! The table of commands: what the words of a command call for, or why it is refused.

pub mod command;
mod connection_command;
pub mod denied;
mod hello;
mod operand;
mod operands;
mod read_command;
pub mod refusal;
mod set_command;
pub mod verb;

pub use read_command::command_of;
