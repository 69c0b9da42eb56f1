//! A node's fingers.

ghost use Rattle.std.specs.Prelude.{◌≡◌, ◌-◌, ◌<◌, ◌≤◌};

use crate::Peer;
use chord_ident::{Id, between};

/// The 128 fingers of a node, each with its node if one was found.
#[derive(Clone, Copy, Debug, PartialEq, Eq)]
pub struct Fingers {
    me: Peer,
    nodes: [Option<Peer>; 128],
}

impl Fingers {
    ghost use Rattle.chord_links.specs.Fingers.{finger_at, start_of, no_fingers, with_finger, IsClosestPreceding};

    /// No finger yet.
    #[tactic(auto, unfolding(crate::specs::Fingers::no_fingers))]
    pub fn none(me: Peer) -> Self
        ensures value { result ≡ no_fingers me }
        ensures owner { result.me ≡ me }
    {
        Fingers {
            me,
            nodes: [None; 128],
        }
    }

    /// The identifier where finger `i` starts.
    pub fn start(&self, i: usize) -> Id
        requires { (1 ≤ i) × (i ≤ 128) }
        ensures { result.number ≡ start_of self.now.me.id.number i }
    {
        self.me.id.plus_power((i - 1) as u32)
    }

    /// The node of finger `i`.
    pub fn get(&self, i: usize) -> Option<Peer>
        requires { (1 ≤ i) × (i ≤ 128) }
        ensures { result ≡ finger_at self.now i }
    {
        self.nodes[i - 1]
    }

    /// Sets the node of finger `i`.
    pub fn set(&mut self, i: usize, node: Peer)
        requires { (1 ≤ i) × (i ≤ 128) }
        ensures { self.new ≡ with_finger self.old i node }
    {
        self.nodes[i - 1] = Some(node);
    }

    /// The finger of greatest number that lies between its owner and `target`, else the owner.
    pub fn closest_preceding(&self, target: Id) -> Peer
        ensures { IsClosestPreceding self.now target.number result }
    {
        let me = self.me;
        for place in (0..128).rev() {
            if let Some(node) = self.nodes[place] {
                if between(me.id, node.id, target) {
                    return node;
                }
            }
        }
        me
    }
}
