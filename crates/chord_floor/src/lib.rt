//! Floors, and what they make final. It has no program.
//!
//! An Ask has a floor: all calls of its caller at or below that number were settled, so each was
//! taken or given up. A node that executes an Ask raises its caller's floor to that one. [`laws`]
//! says what follows in every run of the model `chord_model`: a floor only rises where an
//! identifier is held, and no call at or below it is executed there from then on. So a call that
//! its caller gave up acts before the caller's later calls for the same identifier, or never.
#![tactic(auto)]

pub mod laws;
