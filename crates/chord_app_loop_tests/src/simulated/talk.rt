//! What a client sends, and what is due for it.

use crate::simulated::dice::Dice;
use chord_serve::Served;

/// What a client sends, and what is due for it.
#[derive(Drop)]
pub struct Talk {
    pub input: Vec<u8>,
    pub output: Vec<u8>,
    /// How many requests are asked.
    pub asked: usize,
    /// How the connection ends, if its client stays.
    pub end: Served,
    /// How many bytes its client reads before it goes, if it does.
    pub room: Option<usize>,
}

impl Talk {
    /// One client in eight goes before it has read all.
    pub fn room(dice: &mut Dice) -> Option<usize> {
        if dice.is_one_in(8) {
            return Some(dice.below(200) as usize);
        }
        None
    }

    /// Whether a link ended as it should: it wrote what is due, asked each request once, and ended
    /// so. Where its client went, it wrote the beginning of what is due.
    pub fn is_right(&self, output: &[u8], end: Option<Served>, asked: usize) -> bool {
        let is_cut = self.room.is_some_and(|room| room < self.output.len());
        if is_cut {
            return self.output.starts_with(output) && asked <= self.asked;
        }
        output == self.output.as_slice() && end == Some(self.end) && asked == self.asked
    }
}
