//! The settings of a running ring, and why it and its callers refuse.
#![tactic(auto)]

mod caller;
mod ring;
mod settings;

pub use caller::{
    AskFault, BeginFault, CollectFault, OpenClientFault, OpenFault, RetryFault, WaitFault,
};
pub use ring::{CreateFault, JoinFault, LeaveFault, NewFault, NoSuchNode, TickFault};
pub use settings::Settings;
