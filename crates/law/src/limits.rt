// 01's numbers, each under the name of the definition that it mirrors (specs/Types).

// Values of used and promised and amounts to add lie within this, either way.
pub const MOST_VALUE: u32 = 1000000000;

// Limits, own errors, amounts and stated limits are 0 to this; a told sum lies within it, either way.
pub const MOST_ERROR: u32 = 2000000000;

// A state is a code 0 to this.
pub const MOST_STATE: u32 = 255;

// A record's priority and fresh flag are 0 to these.
pub const MOST_PRIORITY: u32 = 255;

pub const MOST_FLAG: u32 = 1;

// At most so many claims of a disk are active, and at most so many wait.
pub const PLACES: u32 = 8;

// Tickets run from 1 to this.
pub const LAST_TICKET: u32 = 999999;
