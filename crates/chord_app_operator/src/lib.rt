//! What an operator asks of a running ring over HTTP.
//!
//! An [`OperatorService`] is a service of the kit's HTTP server: it reads one request as an
//! [`OperatorCall`] or a [`Refusal`] ([`Site::call_of`]), asks an [`Operator`] once or not at all,
//! and writes one answer.
#![tactic(auto)]

mod link;
mod operator;
mod request;
mod service;
mod show;
mod sight;

pub use link::{Duplex, OperatorLink};
pub use operator::{
    CrashRefusal, Holder, JoinRefusal, LeaveRefusal, Operator, PageState, Pair, PairsPage,
    RescueRefusal,
};
pub use request::{
    CrashRequest, Fault, Format, JoinRequest, OperatorCall, PairsRequest, Refusal, Resource, Rows,
    Site, StoreKind, Verb,
};
pub use service::OperatorService;
pub use show::{
    Stretch, ToJson, array, holder_value, hundredths, id_text, metrics_text, optional, pair_lines,
    ring_table, ring_text,
};
pub use sight::{
    AnswerCounts, ByteCounts, CallerCounts, EndCounts, HealthSight, ProcessSight, ProtocolAnswers,
    RequestTimes, RingSight, SessionCounts, StoredNode, TimeCount,
};
