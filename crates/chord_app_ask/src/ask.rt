//! The command `ask`: requests of one client, and one line out for each.

pub mod copy;
pub mod group;
pub mod input;
pub mod line;
pub mod link;
pub mod links;
pub mod outcome;
pub mod question;
pub mod tokens;
