//! What a node does with its segments and handovers.

pub(crate) mod give;
pub(crate) mod held;
pub(crate) mod hold;
pub mod part_answer;
pub(crate) mod take_in;
