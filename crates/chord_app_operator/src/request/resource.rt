//! The resources.
ghost use Rattle.std.specs.Prelude.{◌≡◌};
ghost use Rattle.chord_app_operator.specs.Paths.{verb_of};

use super::verb::Verb;
use chord_ident::Id;

/// What a path names.
#[derive(Clone, Copy, Debug, PartialEq, Eq)]
pub enum Resource {
    /// `/`
    Page,
    /// `/ring`
    Ring,
    /// `/metrics`
    Metrics,
    /// `/health`
    Health,
    /// `/ready`
    Ready,
    /// `/nodes`
    Nodes,
    /// `/nodes/N/leave`
    Leave(u64),
    /// `/nodes/N/crash`
    Crash(u64),
    /// `/nodes/N/rescue`
    Rescue(u64),
    /// `/holder/KEY`, by the key's identifier
    Holder(Id),
    /// `/pairs`
    Pairs,
    /// `/stop`
    Stop,
}

impl Resource {
    /// What one does with it.
    pub fn verb(self) -> Verb
        ensures { result ≡ verb_of self }
    {
        match self {
            Resource::Nodes
            | Resource::Leave(_)
            | Resource::Crash(_)
            | Resource::Rescue(_)
            | Resource::Stop => Verb::Act,
            _ => Verb::Look,
        }
    }
}
