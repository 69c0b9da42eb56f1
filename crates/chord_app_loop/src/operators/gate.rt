//! Where operators come in.

use chord_app_operator::OperatorService;
use chord_app_sockets::Stop;
use std::hash::RandomState;
use std::net::TcpListener;

/// How many operators there may be at once, and for how long one may be silent.
#[derive(Clone, Copy, Debug, PartialEq, Eq)]
pub struct OperatorLimits {
    /// How many connections there are at most, at least one.
    pub connections: usize,
    /// For how many seconds a client may send no whole request, and take no byte of an answer.
    pub seconds: u64,
}

/// Where operators connect, until `stop` is stopped.
#[derive(Clone, Copy)]
pub struct OperatorGate<'d> {
    pub listener: &'d TcpListener,
    /// Names of headers are told apart by them.
    pub keys: RandomState,
    pub stop: &'d Stop,
    pub limits: OperatorLimits,
}

/// Says what serves operators.
pub trait Reception<O> {
    /// What serves one more connection. None if memory ran out.
    fn receive(&self) -> Option<OperatorService<O>>;
}
