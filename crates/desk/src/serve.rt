// A call on the lent part of an open disk: 14, then the rules, then the part of the new disk. A refusal
// writes nothing to the part.

ghost use Rattle.std.specs.Prelude.{◌≡◌};
ghost use Rattle.law.specs.Calls.{claim as law_claim, release as law_release};
ghost use Rattle.law.specs.DiskType.{disk_table};
ghost use Rattle.rules.specs.Answers.{NewOn, request_of};
ghost use Rattle.rules.specs.Totals.{totals_of};
ghost use Rattle.part.specs.Held.{held, HoldsSound};
ghost use Rattle.desk.specs.Record.{call_of};
ghost use Rattle.desk.specs.Step.{settled, released, serve_of, stepped, written, Ends};

use crate::find::find;
use crate::record::{KIND_AT, Kind, NOW_AT, RECORD_BYTES, TICKET_AT, asked_in};
use answer::{ANSWER_BYTES, Answer, Refusal, put_answer};
use change::grant::grant_new;
use change::moves::{end, leave, wait};
use judge::judged;
use law::Claim;
use num::word::word_at;
use part::layout::PART_BYTES;
use part::read::{clock_at, next_at};
use part::status::Status;
use part::whole::decodes;
use pass::pass;
use rules::totals::Totals;
use sound::is_sound;

// A claim or a release on the lent part of an open disk.
#[tactic(auto, using(crate::proofs::ServeLaws::served), unfolding(crate::specs::Record::asked_in))]
pub(crate) fn serve(
    part: &mut [u8; PART_BYTES],
    r: &[u8; RECORD_BYTES],
    answer: &mut [u8; ANSWER_BYTES],
) -> Result<u32, Refusal>
    ensures { Ends result part.new answer.new (serve_of part.old (call_of r.now)) }
{
    if !decodes(part) {
        return Err(Refusal::Unsound);
    }
    let totals = is_sound(part).ok_or(Refusal::Unsound)?;
    let second = word_at(r, NOW_AT);
    if let Ok(Kind::Claim) = Kind::try_from(r[KIND_AT]) {
        let c = asked_in(r, next_at(part));
        return serve_claim(part, c, second, totals, answer);
    }
    serve_release(part, second, word_at(r, TICKET_AT), answer)
}

// Answers the new claim c at that second, then changes the part as the answer says: the claim is granted, or waits; a refusal
// changes nothing. The part is sound, and `t` are the totals of its active claims.
#[tactic(auto, using(crate::proofs::ServeLaws::claim_answers))]
fn serve_claim(
    part: &mut [u8; PART_BYTES],
    c: Claim,
    second: u32,
    t: Totals,
    answer: &mut [u8; ANSWER_BYTES],
) -> Result<u32, Refusal>
    requires holds_sound { HoldsSound part.old }
    requires new_on { NewOn (held part.old) c }
    requires t_value { t ≡ totals_of (held part.old).core.active }
    ensures { Ends result part.new answer.new (settled part.old (law_claim disk_table (held part.old) (request_of second c))) }
{
    let a = judged(part, c, second, t);
    if let Answer::Refused(r) = a {
        return Err(r);
    }
    let code = put_answer(answer, a);
    match a {
        Answer::Granted(_, told, amount) => grant_new(part, second, c, told, amount),
        Answer::Waits(_) => wait(part, second, c),
        Answer::Released(_) | Answer::Opened | Answer::Refused(_) => unreachable!(),
    }
    Ok(code)
}

// A release on a sound part.
#[tactic(auto, using(crate::proofs::ServeLaws::releases), unfolding(crate::specs::Step::released, answer::specs::Answers::refusal_of))]
fn serve_release(
    part: &mut [u8; PART_BYTES],
    second: u32,
    ticket: u32,
    answer: &mut [u8; ANSWER_BYTES],
) -> Result<u32, Refusal>
    requires { HoldsSound part.old }
    ensures { Ends result part.new answer.new (settled part.old (law_release disk_table (held part.old) second ticket)) }
{
    if second < clock_at(part) {
        return Err(Refusal::Clock);
    }
    if let Some(at) = find(part, Status::Active, ticket) {
        end(part, second, at);
        return Ok(settle(part, ticket, answer));
    }
    if let Some(at) = find(part, Status::Waiting, ticket) {
        leave(part, second, at);
        return Ok(settle(part, ticket, answer));
    }
    Err(Refusal::Ticket)
}

// The claim of that ticket has ended: the release is answered, and the pass runs.
fn settle(part: &mut [u8; PART_BYTES], ticket: u32, answer: &mut [u8; ANSWER_BYTES]) -> u32
    requires { HoldsSound part.old }
    ensures { stepped result part.new answer.new ≡ written (settled part.old (released (held part.old) ticket)) }
{
    let code = put_answer(answer, Answer::Released(ticket));
    pass(part, answer);
    code
}
