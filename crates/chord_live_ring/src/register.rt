//! Who was admitted.
ghost use Rattle.chord_live_steps.specs.Departures.{AreOut};

use chord_live_steps::Numbers;
use chord_table::Naming;

/// The numbers of nodes and callers. While nobody has its lock, it has taken in no seat but those
/// of nodes that are gone.
#[derive(Drop)]
pub(crate) struct Register<J: Naming> {
    pub(crate) numbers: Numbers<J>,
    ghost rests: { AreOut numbers.taken },
}
