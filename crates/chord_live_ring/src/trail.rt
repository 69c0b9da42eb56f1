//! Whether a request goes round.
ghost use Rattle.std.specs.Prelude.{◌≡◌, ◌==◌};
ghost use Rattle.chord_live_ring.specs.Trails.{next_trail};

/// The way of a request from node to node. However long it is, one node of it is kept (R. P. Brent,
/// BIT 20, 1980). Where it comes into a loop, that is seen within three times as many hops as the
/// loop has, or as lead to it if those are more.
#[derive(Clone, Copy, Debug)]
pub(crate) struct Trail {
    /// The node that it came to after 2^k hops, as late as it can be; at first where it began.
    marked: u64,
    hops: u64,
}

impl Trail {
    /// A way that begins at this node.
    pub fn new(node: u64) -> Trail
        ensures { result ≡ record { marked = node; hops = 0 } }
    {
        Trail {
            marked: node,
            hops: 0,
        }
    }

    /// Says whether the next node is the marked one. It is marked itself after 1, 2, 4, 8 .. hops.
    pub fn comes_back(&mut self, node: u64) -> bool
        ensures answer { result ≡ (node == self.old.marked) }
        ensures marked { self.new ≡ next_trail node self.old }
    {
        let is_marked = node == self.marked;
        self.hops = self.hops.saturating_add(1);
        if self.hops.is_power_of_two() {
            self.marked = node;
        }
        is_marked
    }
}
