// What ends and what waits: the end of an active claim, of a waiting one, and a new claim that waits.

ghost use Rattle.std.specs.Prelude.{◌≡◌, ◌+◌, ◌≤◌, ◌<◌, length};
ghost use Rattle.num.specs.Word.{put_word};
ghost use Rattle.num.specs.Signed.{put_signed};
ghost use Rattle.rules.specs.Answers.{ended_at, left_at, waiting_of};
ghost use Rattle.part.specs.Layout.{decode};
ghost use Rattle.part.specs.Held.{held, part_for, HoldsDisk, HoldsSound};
ghost use Rattle.change.specs.Holding.{Holds, land_of, LandFits};

use law::Claim;
use num::bits::share;
use num::signed::{narrow, plus, put_signed};
use num::word::put_word;
use part::layout::{
    ACTIVE_AT, ACTIVES_AT, CLOCK_AT, NEXT_AT, PART_BYTES, PROMISED_AT, STAMP_IN, STATE_AT, USED_AT,
    WAITING_AT, WAITINGS_AT,
};
use part::read::{count_at, figures_at, slot_at};
use part::status::Status;
use rules::method::{PROMISED, STATE, USED, adds, sets};
use slots::{queue_in, take_out};

// Puts a value at an index, and its stamp behind it.
fn store(s: &mut [u8], at: usize, value: i32, stamp: u32)
    requires { at + 8 ≤ length s.old }
    ensures { s.new ≡ put_word (put_signed s.old at value) (at + 4) stamp }
{
    put_signed(s, at, value);
    put_word(s, at + STAMP_IN, stamp);
}

// Lands the active claim w in the figures: a set stores its value, with the second of measuring as the stamp; an add adds its value to
// promised. A reading changes nothing.
fn land(s: &mut [u8; PART_BYTES], w: Claim)
    requires holds_disk { HoldsDisk s.old }
    requires land_fits { LandFits (decode s.old) w }
    ensures { Holds s.new (land_of (decode s.old) w) }
{
    let set = sets(w.method);
    if share(set, USED) {
        store(s, USED_AT, w.value, w.measured);
        return;
    }
    if share(set, PROMISED) {
        store(s, PROMISED_AT, w.value, w.measured);
        return;
    }
    if share(set, STATE) {
        store(s, STATE_AT, w.value, w.measured);
        return;
    }
    if share(adds(w.method), PROMISED) {
        let p = figures_at(s).promised;
        put_signed(s, PROMISED_AT, narrow(plus(p.value, w.value)));
    }
}

// Puts the second of a call as the clock, and another number into the head: a count, or the next ticket.
pub(crate) fn put_numbers(s: &mut [u8; PART_BYTES], second: u32, at: usize, n: u32)
    requires { at ≤ 12 }
    ensures { s.new ≡ put_word (put_word s.old 0 second) at n }
{
    put_word(s, CLOCK_AT, second);
    put_word(s, at, n);
}

// Ends the active claim at a place, at that second.
pub fn end(s: &mut [u8; PART_BYTES], second: u32, at: usize)
    requires holds_sound { HoldsSound s.old }
    requires at_bound { at < (decode s.old).actives }
    ensures { s.new ≡ part_for (ended_at (held s.old) second at) }
{
    let n = count_at(s, Status::Active);
    land(s, slot_at(s, Status::Active, at));
    take_out(&mut s[ACTIVE_AT..WAITING_AT], n as usize, at);
    put_numbers(s, second, ACTIVES_AT, n - 1);
}

// Takes out the waiting claim at a place, at that second.
pub fn leave(s: &mut [u8; PART_BYTES], second: u32, at: usize)
    requires holds_disk { HoldsDisk s.old }
    requires at_bound { at < (decode s.old).waitings }
    ensures { s.new ≡ part_for (left_at (held s.old) second at) }
{
    let n = count_at(s, Status::Waiting);
    take_out(&mut s[WAITING_AT..PART_BYTES], n as usize, at);
    put_numbers(s, second, WAITINGS_AT, n - 1);
}

// Lets the new claim c wait from that second on.
pub fn wait(s: &mut [u8; PART_BYTES], second: u32, c: Claim)
    requires holds_disk { HoldsDisk s.old }
    requires s_bound { (decode s.old).waitings < 8 }
    requires ticket_bound { c.ticket ≤ 999_999 }
    ensures { s.new ≡ part_for (waiting_of (held s.old) second c) }
{
    let n = count_at(s, Status::Waiting);
    queue_in(&mut s[WAITING_AT..PART_BYTES], n as usize, c);
    put_numbers(s, second, WAITINGS_AT, n + 1);
    put_word(s, NEXT_AT, c.ticket + 1);
}
