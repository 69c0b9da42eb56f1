//! The connection of an operator, which owns its stream.

mod connection;
mod duplex;
mod machine;

pub use connection::OperatorLink;
pub use duplex::Duplex;
