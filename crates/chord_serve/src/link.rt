//! A connection as a machine that owns its stream.

pub(crate) mod connection;
mod machine;
pub(crate) mod marks;
pub(crate) mod outbox;
pub(crate) mod protocol;
pub(crate) mod stage;
pub(crate) mod stream;
