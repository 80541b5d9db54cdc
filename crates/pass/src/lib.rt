// The pass on the part of a disk: every waiting claim is tried once, in order, on the state so far, and each grant stands in
// the answer buffer.

#![tactic(auto)]

ghost use Rattle.std.specs.Prelude.{false, map, ◌≡◌, ◌+◌, ◌*◌, ◌≤◌, ◌<◌};
ghost use Rattle.num.specs.Runs.{splice};
ghost use Rattle.law.specs.Granting.{total as law_total};
ghost use Rattle.law.specs.MayGrant.{MayGrant};
ghost use Rattle.law.specs.Calls.{pass as law_pass};
ghost use Rattle.law.specs.DiskType.{disk_table};
ghost use Rattle.rules.specs.Disks.{core_in, disk_of, DiskIs, grant_of, ToldFits};
ghost use Rattle.rules.specs.Totals.{totals_of};
ghost use Rattle.part.specs.Layout.{decode};
ghost use Rattle.part.specs.Held.{held, part_for, HoldsDisk, HoldsSound};
ghost use Rattle.answer.specs.Answers.{OwnOnly, Behind};
ghost use Rattle.judge.specs.Decisions.{actives_in};
ghost use Rattle.pass.specs.Turns.{grant_answer, item_of, kept_at, TurnFits, Turned, closed_at, passed_of};

use answer::{ANSWER_BYTES, put_grant};
use change::grant::grant;
use judge::decision::{decide, totals_at};
use law::Claim;
use law::limits::PLACES;
use num::signed::narrow;
use num::word::put_word;
use part::layout::{PART_BYTES, WAITING_AT, WAITINGS_AT};
use part::read::{clock_at, count_at, figures_at, slot_at};
use part::status::Status;
use rules::totals::Totals;
use slots::{clear_from, put_slot};

// Moves waiting claim i to slot k (nothing to do if k = i); returns k + 1.
#[tactic(auto, using(crate::proofs::PassLaws::few_waiting))]
fn keep(s: &mut [u8; PART_BYTES], i: usize, k: usize) -> usize
    requires holds_disk { HoldsDisk s.old }
    requires i_bound { i < (decode s.old).waitings }
    requires k_le_i { k ≤ i }
    ensures value { result ≡ k + 1 }
    ensures holds_disk_2 { HoldsDisk s.new }
    ensures s_after { decode s.new ≡ kept_at (decode s.old) i k }
{
    if k == i {
        return k + 1;
    }
    let c = slot_at(s, Status::Waiting, i);
    put_slot(&mut s[WAITING_AT..PART_BYTES], k, c);
    k + 1
}

// Grants c with its total; the grant stands in the buffer behind the call's own answer and n other grants.
fn give(s: &mut [u8; PART_BYTES], answer: &mut [u8; ANSWER_BYTES], n: usize, c: Claim, total: u32)
    requires holds_disk { HoldsDisk s.old }
    requires may_grant { MayGrant disk_table (core_in (decode s.old)) c }
    requires told_fits { ToldFits (decode s.old) c }
    requires total_value { total ≡ law_total disk_table (core_in (decode s.old)) c }
    requires n_bound { n < 8 }
    ensures holds_disk_2 { HoldsDisk s.new }
    ensures disk_is { DiskIs (decode s.new) (grant_of (disk_of (decode s.old)) c) }
    ensures answer_after { answer.new ≡ splice answer.old (16 + 16 * n) (item_of (decode s.old) c) }
{
    let z = narrow(figures_at(s).told(c.method));
    grant(s, c, z, total);
    put_grant(answer, n, c.ticket, z, total);
}

// Tries waiting claim i, of which k ahead still wait. It is granted, and its grant stands behind those of the i - k others; or it
// waits on in slot k. Returns how many wait then. With eight active, or one active whose entry is N, it waits undecided, and only
// its method is read.
#[tactic(auto, using(crate::proofs::PassLaws::few_waiting))]
fn turn(
    s: &mut [u8; PART_BYTES],
    answer: &mut [u8; ANSWER_BYTES],
    i: usize,
    k: usize,
    t: Totals,
) -> usize
    requires holds_disk { HoldsDisk s.old }
    requires turn_fits { TurnFits (decode s.old) i }
    requires i_bound { i < (decode s.old).waitings }
    requires k_le_i { k ≤ i }
    requires t_value { t ≡ totals_of (actives_in (decode s.old)) }
    ensures holds_disk_2 { HoldsDisk s.new }
    ensures turned { Turned (decode s.old) (decode s.new) answer.old answer.new i k result }
{
    let m = slot_at(s, Status::Waiting, i).method;
    if (PLACES <= count_at(s, Status::Active)) | t.keep_out(m) {
        return keep(s, i, k);
    }
    let c = slot_at(s, Status::Waiting, i);
    if let Some(total) = decide(s, k, c, clock_at(s), t) {
        give(s, answer, i - k, c, total as u32);
        return k;
    }
    keep(s, i, k)
}

// Clears the slots behind the first k of the n waiting claims, which wait on.
fn close(s: &mut [u8; PART_BYTES], k: usize, n: usize)
    requires holds_disk { HoldsDisk s.old }
    requires k_le_n { k ≤ n }
    requires n_value { n ≡ (decode s.old).waitings }
    ensures { s.new ≡ part_for (closed_at (decode s.old) k) }
{
    clear_from(&mut s[WAITING_AT..PART_BYTES], k, n);
    put_word(s, WAITINGS_AT, k as u32);
}

// The totals of the active claims after a turn: taken anew where a claim was granted, else as before.
fn after_turn(s: &[u8; PART_BYTES], granted: bool, t: Totals) -> Totals
    requires holds_disk { HoldsDisk s.now }
    requires t_value { granted ≡ false → t ≡ totals_of (actives_in (decode s.now)) }
    ensures { result ≡ totals_of (actives_in (decode s.now)) }
{
    if granted {
        return totals_at(s);
    }
    t
}

// The pass, with its grants behind the one answer in the buffer. Of the i claims tried, k still wait and stand in front.
pub fn pass(s: &mut [u8; PART_BYTES], answer: &mut [u8; ANSWER_BYTES])
    requires holds_sound { HoldsSound s.old }
    requires own_only { OwnOnly answer.old }
    ensures s_after { s.new ≡ part_for (passed_of (held s.old)) }
    ensures behind { Behind answer.old (map grant_answer (law_pass disk_table (held s.old).core (held s.old).waiting).items) answer.new }
{
    let n = count_at(s, Status::Waiting) as usize;
    if n == 0 {
        return;
    }
    let mut t = totals_at(s);
    let mut k = 0;
    for i in 0..n {
        let waits = turn(s, answer, i, k, t);
        t = after_turn(s, waits == k, t);
        k = waits;
    }
    close(s, k, n);
}
