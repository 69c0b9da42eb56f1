//! The codes in frames, and the limits of frames.

/// Requests without a floor field, and all answers.
pub const VERSION_1: u8 = 1;

/// Requests with a floor field.
pub const VERSION_2: u8 = 2;

pub const INSERT: u8 = 1;

pub const RETRIEVE: u8 = 2;

pub const REMOVE: u8 = 3;

/// Begins or resumes a session.
pub const OPEN: u8 = 4;

/// Ends a session.
pub const CLOSE: u8 = 5;

/// The reply to an insert.
pub const INSERTED: u8 = 129;

/// The reply to a retrieve.
pub const RETRIEVED: u8 = 130;

/// The reply to a remove.
pub const REMOVED: u8 = 131;

/// The answer to an open.
pub const OPENED: u8 = 132;

/// The answer to a close.
pub const CLOSED: u8 = 133;

pub const FAULT: u8 = 255;

/// Nothing changed: the value was there already, or was not there.
pub const UNCHANGED: u8 = 0;

/// The value was added, or removed.
pub const CHANGED: u8 = 1;

/// The set has no room for the value.
pub const SET_FULL: u8 = 2;

pub const BAD_LENGTH: u8 = 1;

pub const BAD_VERSION: u8 = 2;

pub const BAD_OPERATION: u8 = 3;

pub const BAD_KEY: u8 = 4;

pub const BAD_VALUE: u8 = 5;

pub const TRAILING: u8 = 6;

/// Memory ran out; no frame has this code.
pub const MEMORY: u8 = 7;

pub const NUMBER_REUSED: u8 = 8;

pub const BAD_NUMBER: u8 = 9;

pub const FULL: u8 = 10;

pub const NO_ANSWER: u8 = 11;

pub const BAD_FLOOR: u8 = 12;

/// A session is to begin that has begun before.
pub const SESSION_KNOWN: u8 = 13;

/// A session is to be resumed that is not kept.
pub const NO_SESSION: u8 = 14;

/// Told before any request is read.
pub const CALLERS_SPENT: u8 = 15;

/// A session may begin in the first frame alone, and be closed only once it began.
pub const OUT_OF_PLACE: u8 = 16;

/// How far a number may be above its floor.
pub const WINDOW: u64 = 16;

/// The fewest bytes of a request's body.
pub const LEAST_REQUEST: u32 = 12;

/// The most bytes of a request's body.
pub const MOST_REQUEST: u32 = 4372;

/// The fewest bytes of an answer's body.
pub const LEAST_ANSWER: u32 = 11;

/// The fewest bytes of an answer's body in a session.
pub const LEAST_SESSION_ANSWER: u32 = 10;

/// The bytes of a token.
pub const TOKEN_BYTES: usize = 16;

/// The session of an open begins.
pub const BEGINS: u8 = 0;

/// The session of an open is resumed.
pub const RESUMES: u8 = 1;

/// The most bytes of an answer's body.
pub const MOST_ANSWER: u32 = 4098014;
