// The figures of a disk, and the rules of one claim on them: what it is told, the error carried, its gap, its starting amount and
// limit, its preconditions.

ghost use Rattle.std.specs.Prelude.{cond, ◌&&◌, ◌≡◌, ◌+◌, ◌≤◌, leb, pos};
ghost use Rattle.num.specs.Metric.{size};
ghost use Rattle.law.specs.Entries.{kind_at};
ghost use Rattle.law.specs.Granting.{gap_by, start_by, limit_by, told_by, carried_by};
ghost use Rattle.law.specs.DiskType.{disk_table};
ghost use Rattle.rules.specs.Methods.{in_law, written_by, fresh_at, pre_of};
ghost use Rattle.rules.specs.Pairs.{raise_of};

use crate::method::{is_add, is_reading, reads, writes};
use law::limits::MOST_VALUE;
use law::{Attr, Claim};
use num::bits::bit;
use num::signed::{gap, size};

// Valid for 300, 300 and 3,600 seconds.
const USED_VALID: u64 = 300;

const PROMISED_VALID: u64 = 300;

const STATE_VALID: u64 = 3600;

// The figures of a disk. The state's amount and limit are 0 on a sound disk.
#[derive(Clone, Copy, PartialEq, Eq, Debug)]
pub struct Figures {
    pub used: Attr,
    pub promised: Attr,
    pub state: Attr,
}

impl Figures {
    // The error that the figures carry for a method: the sum of the amounts that it reads.
    pub(crate) fn carried(&self, m: u32) -> u64
        ensures value { result ≡ carried_by (in_law self.now) (kind_at disk_table m) }
        ensures upper_bound { result ≤ 12884901885 }
    {
        let mask = reads(m);
        u64::from(if_read(bit(mask, 0), self.used.amount, 0))
            + u64::from(if_read(bit(mask, 1), self.promised.amount, 0))
            + u64::from(if_read(bit(mask, 2), self.state.amount, 0))
    }

    // What a method is told: the sum of the values that it reads, 0 for a write.
    pub fn told(&self, m: u32) -> i64
        ensures value { result ≡ told_by (in_law self.now) (kind_at disk_table m) }
        ensures result_bound { size result ≤ 6442450944 }
    {
        let mask = reads(m);
        i64::from(if_read(bit(mask, 0), self.used.value, 0))
            + i64::from(if_read(bit(mask, 1), self.promised.value, 0))
            + i64::from(if_read(bit(mask, 2), self.state.value, 0))
    }

    // The attribute that a write writes; the state for a reading, which writes none.
    pub(crate) fn written(&self, m: u32) -> Attr
        ensures { result ≡ written_by (in_law self.now) (kind_at disk_table m) }
    {
        let mask = writes(m);
        if bit(mask, 0) {
            return self.used;
        }
        if bit(mask, 1) {
            return self.promised;
        }
        self.state
    }

    // The gap that a write of a value leaves to the present figures: |z − value| for a set, |d| for an add.
    pub(crate) fn gap_of(&self, m: u32, value: i32) -> u64
        ensures value { result ≡ gap_by (in_law self.now) (kind_at disk_table m) value }
        ensures upper_bound { result ≤ 4294967295 }
    {
        if is_reading(m) {
            return 0;
        }
        if is_add(m) {
            return u64::from(size(value));
        }
        gap(value, self.written(m).value)
    }

    // The starting amount: a set, its own error; an add, the attribute's amount + its own error; a
    // reading, the sum of the amounts read.
    pub fn start(&self, m: u32, error: u32) -> u64
        ensures value { result ≡ start_by (in_law self.now) (kind_at disk_table m) error }
        ensures upper_bound { result ≤ 12884901885 }
    {
        if is_reading(m) {
            return self.carried(m);
        }
        if is_add(m) {
            return u64::from(self.written(m).amount) + u64::from(error);
        }
        u64::from(error)
    }

    // What the total must stay within: the attribute's limit, or the stated limit of a reading.
    pub fn limit(&self, m: u32, error: u32) -> u32
        ensures { result ≡ limit_by (in_law self.now) (kind_at disk_table m) error }
    {
        if is_reading(m) {
            return error;
        }
        self.written(m).limit
    }

    // Precondition (a): for each attribute read, stamp + validity > now.
    pub(crate) fn fresh(&self, m: u32, flag: u32, now: u32) -> bool
        ensures { result ≡ fresh_at (in_law self.now) now (kind_at disk_table m) flag }
    {
        if flag == 0 {
            return true;
        }
        let mask = reads(m);
        if stale(bit(mask, 0), self.used.stamp, USED_VALID, now) {
            return false;
        }
        if stale(bit(mask, 1), self.promised.stamp, PROMISED_VALID, now) {
            return false;
        }
        !stale(bit(mask, 2), self.state.stamp, STATE_VALID, now)
    }

    // Preconditions (a) to (d) at second now; adds is the sum of |d| over the active adds.
    pub fn preconditions(&self, c: Claim, now: u32, adds: u64) -> bool
        requires { adds ≤ 34359738368 }
        ensures { result ≡ pre_of (in_law self.now) now adds c }
    {
        let m = c.method;
        if is_add(m) {
            let a = self.written(m);
            if u64::from(a.limit) < u64::from(a.amount) + u64::from(c.error) {
                return false;
            }
            return u64::from(size(a.value)) + adds + u64::from(size(c.value))
                <= u64::from(MOST_VALUE);
        }
        if is_reading(m) {
            if u64::from(c.error) < self.carried(m) {
                return false;
            }
            return self.fresh(m, c.flag, now);
        }
        true
    }

    // How much the requested claim c raises the amount of a reading: its own error and its gap.
    pub fn raise_of(&self, c: Claim) -> u64
        ensures value { result ≡ raise_of (in_law self.now) c }
        ensures upper_bound { result ≤ 8589934590 }
    {
        u64::from(c.error) + self.gap_of(c.method, c.value)
    }
}

// x if it is read, and `none` if not.
fn if_read<T: Copy>(read: bool, x: T, none: T) -> T
    ensures { result ≡ cond read x none }
{
    if read { x } else { none }
}

// A figure is stale at stamp + validity.
fn stale(read: bool, stamp: u32, valid: u64, now: u32) -> bool
    requires { valid ≤ 3600 }
    ensures { result ≡ (read && leb (stamp + valid) now) }
{
    read && u64::from(stamp) + valid <= u64::from(now)
}
