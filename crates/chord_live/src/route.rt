//! Ways to send a request.
ghost use Rattle.std.specs.Prelude.{◌≡◌};

/// How a request gets to the nodes.
#[derive(Clone, Copy, Debug)]
pub(crate) enum Route {
    /// Into a node's inbox, whose worker takes it in.
    Inbox,
    /// The calling thread carries it from node to node, and does each node's event.
    Carried,
    /// So once, without a wait.
    Tried,
}

/// How a request gets to the nodes, and where it begins.
#[derive(Clone, Copy, Debug)]
pub(crate) struct Way {
    pub route: Route,
    pub via: u64,
}

impl Way {
    /// Into the inbox of this node.
    pub fn by_inbox(via: u64) -> Way
        ensures { result.via ≡ via }
    {
        Way {
            route: Route::Inbox,
            via,
        }
    }

    /// Carried by the calling thread, from this node on.
    pub fn carried(via: u64) -> Way
        ensures { result.via ≡ via }
    {
        Way {
            route: Route::Carried,
            via,
        }
    }

    /// Carried once by the calling thread, from this node on.
    pub fn tried(via: u64) -> Way
        ensures { result.via ≡ via }
    {
        Way {
            route: Route::Tried,
            via,
        }
    }
}
