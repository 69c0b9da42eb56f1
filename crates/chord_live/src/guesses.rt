//! Which node answered last.
ghost use Rattle.std.specs.Prelude.{◌≡◌, ◌<◌, ◌/◌, ◌^◌};
ghost use Rattle.chord_live.specs.Guesses.{no_guesses, guess_at, with_guess, kept_number};

use chord_ident::Id;

/// For each value of an identifier's first byte, the node that answered last, if any. A number
/// above 65,535 is not remembered; those of a ring are below 4,096.
#[derive(Drop)]
pub struct Guesses {
    nodes: [Option<u16>; 256],
}

/// The first byte of an identifier.
fn place_of(id: Id) -> usize
    ensures value { result ≡ id.number / 2 ^ 120 }
    ensures bound { result < 256 }
{
    (id.value() >> 120) as usize
}

impl Guesses {
    /// No node is known yet.
    #[tactic(auto, unfolding(crate::specs::Guesses::no_guesses))]
    pub fn new() -> Guesses
        ensures { result ≡ no_guesses }
    {
        Guesses { nodes: [None; 256] }
    }

    /// The node that answered last for identifiers with the same first byte.
    pub fn guess(&self, id: Id) -> Option<u64>
        ensures { result ≡ guess_at self.now id.number }
    {
        match self.nodes[place_of(id)] {
            Some(number) => Some(number as u64),
            None => None,
        }
    }

    /// Remembers that this node answered for the identifier.
    pub fn remember(&mut self, id: Id, number: u64)
        ensures { self.new ≡ with_guess self.old id.number (kept_number number) }
    {
        self.nodes[place_of(id)] = u16::try_from(number).ok();
    }

    /// Forgets the node for identifiers with the same first byte.
    pub fn forget(&mut self, id: Id)
        ensures { self.new ≡ with_guess self.old id.number None }
    {
        self.nodes[place_of(id)] = None;
    }
}
