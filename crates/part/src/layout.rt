// Where what stands in a part, each place under the name of the definition that it mirrors (specs/Layout).

pub const PART_BYTES: usize = 768;

// The head.
pub const CLOCK_AT: usize = 0;

pub const NEXT_AT: usize = 4;

pub const ACTIVES_AT: usize = 8;

pub const WAITINGS_AT: usize = 12;

pub const USED_AT: usize = 16;

pub const PROMISED_AT: usize = 32;

pub const STATE_AT: usize = 48;

pub const HEAD_SPARE_AT: usize = 56;

// In an attribute: its value stands first, then these. The state has a value and a stamp only.
pub const STAMP_IN: usize = 4;

pub const AMOUNT_IN: usize = 8;

pub const LIMIT_IN: usize = 12;

// The slots: eight of active claims, eight of waiting ones.
pub const ACTIVE_AT: usize = 64;

pub const WAITING_AT: usize = 416;

pub const SLOTS_BYTES: usize = 352;

pub const SLOT_BYTES: usize = 44;

// In a slot.
pub const SLOT_TICKET: usize = 0;

pub const SLOT_METHOD: usize = 4;

pub const SLOT_PRIORITY: usize = 8;

pub const SLOT_FLAG: usize = 12;

pub const SLOT_MEASURED: usize = 16;

pub const SLOT_VALUE: usize = 20;

pub const SLOT_ERROR: usize = 24;

pub const SLOT_TOLD: usize = 28;

pub const SLOT_AMOUNT: usize = 32;

pub const SLOT_SPARE: usize = 36;
