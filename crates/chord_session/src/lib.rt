//! The requests of a session, and what to do with each.
//!
//! [`Session`] has the requests above the greatest floor that it accepted, each with the frame of
//! its reply, if it has one. [`Session::accept`] says by a [`Move`] whether a request is refused,
//! answered again, asked or asked again; it asks nobody itself. The caller adds what it asks by
//! [`Session::add`], and stores the frame of the reply by [`Session::keep`].
#![tactic(auto)]

mod asked_request;
mod session;

pub use asked_request::AskedRequest;
pub use session::{Move, Session};
