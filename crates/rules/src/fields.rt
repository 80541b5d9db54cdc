// The fields of a claim and of an open: refusals 15 to 19, which need no decision.

ghost use Rattle.std.specs.Prelude.{◌≡◌};
ghost use Rattle.law.specs.Base.{all_true};
ghost use Rattle.law.specs.Entries.{kind_at, kind_of};
ghost use Rattle.law.specs.Calls.{field_tests, own_fits, limits_fit};
ghost use Rattle.law.specs.DiskType.{disk_table};
ghost use Rattle.rules.specs.Methods.{in_law};
ghost use Rattle.rules.specs.Answers.{value_by, first_refusal, first_rules};

use crate::figures::Figures;
use crate::method::{is_known, is_reading, sets_state};
use answer::Refusal;
use law::Claim;
use law::limits::{LAST_TICKET, MOST_ERROR, MOST_STATE, MOST_VALUE};
use num::signed::{size, within};

// A state is a code 0 to 255; every other value lies within 1,000,000,000, either way.
fn value_fits(m: u32, value: i32) -> bool
    ensures { result ≡ value_by (kind_at disk_table m) value }
{
    if sets_state(m) {
        if value < 0 {
            return false;
        }
        return within(value, MOST_STATE);
    }
    within(value, MOST_VALUE)
}

// 17: the fields of a claim at second now.
pub(crate) fn fields_fit(c: Claim, now: u32) -> bool
    ensures { result ≡ all_true (field_tests now (kind_of disk_table c) c) }
{
    if MOST_ERROR < c.error {
        return false;
    }
    if is_reading(c.method) {
        if c.measured != 0 {
            return false;
        }
        return size(c.value) == 0;
    }
    if c.flag != 0 {
        return false;
    }
    if now < c.measured {
        return false;
    }
    value_fits(c.method, c.value)
}

// 18: a write's own error is within its attribute's limit.
pub(crate) fn own_fits(f: &Figures, m: u32, error: u32) -> bool
    ensures { result ≡ own_fits (in_law f.now) (kind_at disk_table m) error }
{
    if is_reading(m) {
        return true;
    }
    error <= f.written(m).limit
}

// The first of the refusals 15 to 19 that applies to a claim, or that none does.
pub fn checked(f: &Figures, c: Claim, now: u32, clock: u32) -> Result<(), Refusal>
    ensures { result ≡ first_refusal (first_rules (in_law f.now) clock now c) }
{
    if now < clock {
        return Err(Refusal::Clock);
    }
    if !is_known(c.method) {
        return Err(Refusal::Method);
    }
    if !fields_fit(c, now) {
        return Err(Refusal::Field);
    }
    if !own_fits(f, c.method, c.error) {
        return Err(Refusal::OwnError);
    }
    if LAST_TICKET < c.ticket {
        return Err(Refusal::NoTicket);
    }
    Ok(())
}

// Whether the limits that an open gives to used and promised are in range; else it is refused 17.
pub fn limits_fit(l0: u32, l1: u32) -> bool
    ensures { result ≡ limits_fit l0 l1 }
{
    l0 <= MOST_ERROR && l1 <= MOST_ERROR
}
