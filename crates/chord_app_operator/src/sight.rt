//! What an operator sees of a ring.

mod answers;
mod counts;
mod health;
mod node;
mod process;
mod ring;
mod times;
mod traffic;

pub use answers::{AnswerCounts, ProtocolAnswers};
pub use counts::CallerCounts;
pub use health::HealthSight;
pub use node::StoredNode;
pub use process::ProcessSight;
pub use ring::RingSight;
pub use times::{RequestTimes, TimeCount};
pub use traffic::{ByteCounts, EndCounts, SessionCounts};
