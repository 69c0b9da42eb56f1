//! What a request asks for.

mod body;
mod calls;
mod fault;
mod format;
mod paths;
mod query;
mod read;
mod refusal;
mod resource;
mod rows;
mod site;
mod store_kind;
mod verb;

pub use calls::{CrashRequest, JoinRequest, OperatorCall, PairsRequest};
pub use fault::Fault;
pub use format::Format;
pub use refusal::Refusal;
pub use resource::Resource;
pub use rows::Rows;
pub use site::Site;
pub use store_kind::StoreKind;
pub use verb::Verb;
