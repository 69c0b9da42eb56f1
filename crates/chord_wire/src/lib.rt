//! Frames of requests and answers, versions 1 and 2.
//!
//! [`Frames`] takes in the bytes of a stream by `feed`, in pieces of any
//! length, and gives its whole requests by `next`; [`Answers`] does so for a
//! client. The writers, as [`write_request`] and [`write_reply`], make one
//! frame each. A frame that breaks a rule is a [`WireFault`] with its code.
//!
//! A session may outlive its connection. Its frames are read by [`SessionFrames`] and
//! [`SessionAnswers`], which know [`Opening`] and the frames that end a session too.
//!
//! [`laws`] says that every stream has one reading, however it was cut.
#![tactic(auto)]

mod answer;
mod answers;
mod codes;
mod fault;
mod frames;
pub mod laws;
mod reader;
mod reading;
mod request;
mod session_answer;
mod session_answers;
mod session_frame;
mod session_frames;
mod stream;
mod token;
mod writing;

pub use answer::Answer;
pub use answers::Answers;
pub use fault::{FaultCode, WireFault};
pub use frames::Frames;
pub use request::WireRequest;
pub use session_answer::SessionAnswer;
pub use session_answers::SessionAnswers;
pub use session_frame::{Opening, SessionFrame};
pub use session_frames::SessionFrames;
pub use token::Token;
pub use writing::sessions::{write_close, write_closed, write_open, write_opened};
pub use writing::writable::is_writable;
pub use writing::{write_fault, write_reply, write_request, write_request_2};
