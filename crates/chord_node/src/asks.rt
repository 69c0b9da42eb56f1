//! What a node does with a call.

pub mod answered;
mod apply;
pub(crate) mod execute;
pub(crate) mod pass_on;
pub(crate) mod take;
