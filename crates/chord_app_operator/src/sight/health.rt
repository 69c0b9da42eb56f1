//! Whether a server can serve.
ghost use Rattle.std.specs.Prelude.{◌≡◌, option_map};
ghost use Rattle.chord_app_operator.specs.Health.{unhealthy, unready};

/// What a server tells of its health.
#[derive(Clone, Copy, Debug, PartialEq, Eq)]
pub struct HealthSight {
    /// Whether a node is staying.
    pub has_node: bool,
    /// Whether a client that comes now gets a caller.
    pub has_caller: bool,
    /// Whether the server ends.
    pub is_stopped: bool,
}

impl HealthSight {
    /// Why the server is to be started anew, if it is.
    pub(crate) fn unhealthy(self) -> Option<&'static str>
        ensures { option_map (λ text. text.now) result ≡ unhealthy self }
    {
        if self.is_stopped {
            Some("the server stops\n")
        } else if self.has_node {
            None
        } else {
            Some("no node is staying\n")
        }
    }

    /// Why it is to get no further clients, if it is not.
    pub(crate) fn unready(self) -> Option<&'static str>
        ensures { option_map (λ text. text.now) result ≡ unready self }
    {
        match self.unhealthy() {
            Some(reason) => Some(reason),
            None if self.has_caller => None,
            None => Some("no caller is free\n"),
        }
    }
}
