//! What lies where in the table of a queue: its words, and its slots.

/// The buffers of a queue. A sender's buffer is its pid modulo this number.
pub const BUFFERS: usize = 64;

/// The words that are in use stand so many apart, so that no two lie in one line of a cache.
pub const APART: usize = 8;

/// The word of the outer turn: 0 where it is free, and else the number of its holder plus 1.
pub const OUTER: usize = 0;

/// The word of the mode: 1 while buffers are in use, and else 0.
pub const MODE: usize = 8;

/// The word of the bits: one for each buffer that may have something.
pub const FILLED: usize = 16;

/// The word of the turn of buffer 0. Those of the others follow, `APART` words from one to the next.
pub const FIRST_TURN: usize = 24;

/// The words of a table: three and one for each buffer, each with those between.
pub const WORDS: usize = 536;

/// The slots of a table: that of the outer value, and behind it one for the list of each buffer.
pub const SLOTS: usize = 65;
