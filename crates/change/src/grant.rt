// The grant of a claim: a write raises the readings of what it writes and notes its total; a reading is told the present sum and
// carries its total.

ghost use Rattle.std.specs.Prelude.{false, ◌≡◌, ◌<◌};
ghost use Rattle.law.specs.Entries.{kind_at, kind_of};
ghost use Rattle.law.specs.Granting.{told_by, put_told, total as law_total};
ghost use Rattle.law.specs.MayGrant.{MayGrant};
ghost use Rattle.law.specs.DiskType.{disk_table};
ghost use Rattle.rules.specs.Methods.{is_reading};
ghost use Rattle.rules.specs.Answers.{TakesGrant, granted_of};
ghost use Rattle.rules.specs.Disks.{figures_in, core_in, disk_of, DiskIs, grant_of};
ghost use Rattle.part.specs.Layout.{decode};
ghost use Rattle.part.specs.Held.{held, part_for, HoldsDisk};
ghost use Rattle.change.specs.Holding.{Holds, NoteFits, with_last, noted, raised_of};

use crate::moves::put_numbers;
use law::Claim;
use num::bits::share;
use num::word::put_word;
use part::layout::{
    ACTIVE_AT, ACTIVES_AT, AMOUNT_IN, NEXT_AT, PART_BYTES, PROMISED_AT, USED_AT, WAITING_AT,
};
use part::read::{count_at, figures_at};
use part::status::Status;
use rules::method::{PROMISED, USED, is_reading, writes};
use slots::{put_slot, raise_all};

// Raises the active claims for the grant of the write c.
fn raise_on(s: &mut [u8; PART_BYTES], c: Claim)
    requires holds_disk { HoldsDisk s.old }
    requires may_grant { MayGrant disk_table (core_in (decode s.old)) c }
    requires method_value { is_reading (kind_at disk_table c.method) ≡ false }
    ensures { Holds s.new (raised_of (decode s.old) c) }
{
    let n = count_at(s, Status::Active);
    let raise = figures_at(s).raise_of(c);
    raise_all(&mut s[ACTIVE_AT..WAITING_AT], n as usize, c.method, raise);
}

// Notes the total of a granted write of method m as the amount of what it writes. The state's amount is 0 and has no place.
fn note(s: &mut [u8; PART_BYTES], m: u32, total: u32)
    requires holds_disk { HoldsDisk s.old }
    requires note_fits { NoteFits m total }
    ensures { Holds s.new (noted (decode s.old) m total) }
{
    let written = writes(m);
    if share(written, USED) {
        put_word(s, USED_AT + AMOUNT_IN, total);
        return;
    }
    if share(written, PROMISED) {
        put_word(s, PROMISED_AT + AMOUNT_IN, total);
    }
}

// Puts the claim c behind the active ones, with the sum that it is told and its amount.
fn put_last(s: &mut [u8; PART_BYTES], c: Claim, told: i32, amount: u32)
    requires holds_disk { HoldsDisk s.old }
    requires actives_bound { (decode s.old).actives < 8 }
    ensures { Holds s.new (with_last (decode s.old) (decode s.old).actives (put_told c told amount)) }
{
    let n = count_at(s, Status::Active);
    let row = &mut s[ACTIVE_AT..WAITING_AT];
    put_slot(row, n as usize, Claim { told, amount, ..c });
    put_word(s, ACTIVES_AT, n + 1);
}

// Grants the claim c, with the sum that it is told and the total that the decision has counted.
pub fn grant(s: &mut [u8; PART_BYTES], c: Claim, told: i32, total: u32)
    requires holds_disk { HoldsDisk s.old }
    requires may_grant { MayGrant disk_table (core_in (decode s.old)) c }
    requires told_value { told ≡ told_by (figures_in (decode s.old)) (kind_of disk_table c) }
    requires total_value { total ≡ law_total disk_table (core_in (decode s.old)) c }
    ensures holds_disk_2 { HoldsDisk s.new }
    ensures holds { Holds s.new (decode s.new) }
    ensures disk_is { DiskIs (decode s.new) (grant_of (disk_of (decode s.old)) c) }
{
    if is_reading(c.method) {
        put_last(s, c, told, total);
        return;
    }
    raise_on(s, c);
    note(s, c.method, total);
    put_last(s, c, 0, 0);
}

// Grants the claim c, which is new at that second.
pub fn grant_new(s: &mut [u8; PART_BYTES], second: u32, c: Claim, told: i32, total: u32)
    requires holds_disk { HoldsDisk s.old }
    requires takes_grant { TakesGrant (decode s.old) second c total }
    requires told_value { told ≡ told_by (figures_in (decode s.old)) (kind_of disk_table c) }
    ensures { s.new ≡ part_for (granted_of (held s.old) second c) }
{
    put_numbers(s, second, NEXT_AT, c.ticket + 1);
    grant(s, c, told, total);
}
