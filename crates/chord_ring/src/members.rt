//! Reading the links of a ring's members.
ghost use Rattle.std.specs.Prelude.{◌≡◌, ℕ, ◌<◌, IsTrue, length};
ghost use Rattle.std.specs.Option.{option_copied};
ghost use Rattle.chord_ring.specs.Ring.{links_of, is_member};
ghost use Rattle.chord_ring.specs.Steps.{Ring};

use chord_links::Links;

/// Reads the links of the members of one ring, however they are stored.
pub trait MemberReader {
    /// The ring that is read.
    ghost ring: { Self → Ring };

    /// The number at each place of the list that a judge of a departure goes through.
    ghost number_at: { Self → ℕ → ℕ };

    /// The links of the node of this number, if it is a member.
    fn member(&self, number: u64) -> Option<&Links>
        ensures { option_copied result ≡ links_of (ring self.now).members number };

    /// How many nodes ever joined. All numbers are below it.
    fn count(&self) -> u64
        ensures { result ≡ length (ring self.now).members };

    /// How many places the list has. Each member's number is at one.
    fn listed(&self) -> u64
        ensures { (number : ℕ) → IsTrue (is_member (ring self.now).members number) →
            (place : ℕ) × (place < result) × (number_at self.now place ≡ number) };

    /// The number at a place of the list.
    fn listed_at(&self, place: u64) -> u64
        ensures { result ≡ number_at self.now place };
}
