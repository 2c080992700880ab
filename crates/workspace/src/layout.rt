// The slots by what is kept in them; each has sixteen terms.

// The registers of the first machine, and of the second: 16 each.
pub const FIRST_REGISTERS: usize = 0;

pub const SECOND_REGISTERS: usize = 16;

// The values of a substitution: 32.
pub const SUBSTITUTION: usize = 32;

// The outputs along the first path, and along the second: 16 each.
pub const FIRST_OUTPUTS: usize = 64;

pub const SECOND_OUTPUTS: usize = 80;

// The known tests, 8 facts and 16 tests of a path, with two sides each: 48.
pub const KNOWN: usize = 96;

// Values that are not stored yet: 8.
pub const PENDING: usize = 144;

// The two sides of the test at hand.
pub const LEFT: usize = 152;

pub const RIGHT: usize = 153;

// The stack of an evaluation: 8.
pub const STACK: usize = 154;

// The number of slots.
pub const SLOTS: usize = 162;

// The first term behind the slots, where sums and products are made.
pub const SCRATCH: usize = 2592;

// The terms above the level that a call may use.
pub const ROOM: usize = 4096;
