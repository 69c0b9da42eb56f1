//! The limits of keys, values and sets.

/// The most bytes of a key. A key has at least one.
pub const KEY_BYTES: usize = 255;

/// The most bytes of a value.
pub const VALUE_BYTES: usize = 4096;

/// The most values under one key.
pub const SET_VALUES: usize = 1000;
