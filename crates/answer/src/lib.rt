// Answers and refusals as enums, and their items in the answer buffer. 01's number and values of each case are definitions
// (specs/Answers), which the promises use.

#![tactic(auto)]

ghost use Rattle.std.specs.Prelude.{◌≡◌, [], ◌+◌, ◌*◌, ◌≤◌, ◌<◌, length};
ghost use Rattle.num.specs.Runs.{splice};
ghost use Rattle.answer.specs.declared.Answer.TheVariants.{Granted};
ghost use Rattle.answer.specs.Answers.{number_of, code_of, shown_of, shown_bytes, item_bytes, answer_bytes, shown_at};

use num::signed::{signed_at, to_word};
use num::word::{put_word, word_at};

// The answer buffer: nine items.
pub const ANSWER_BYTES: usize = 144;

const ITEM_BYTES: usize = 16;

const MOST_GRANTS: usize = 8;

// The refusals, 9 to 21 in 01's order.
#[derive(Clone, Copy, PartialEq, Eq, Debug)]
pub enum Refusal {
    Length,
    Record,
    Disk,
    Open,
    Closed,
    Unsound,
    Clock,
    Method,
    Field,
    OwnError,
    NoTicket,
    Full,
    Ticket,
}

// 01's number of a refusal.
impl From<Refusal> for u32 {
    ghost from_gives = { λ r n. n ≡ number_of r };

    fn from(r: Refusal) -> u32 {
        match r {
            Refusal::Length => 9,
            Refusal::Record => 10,
            Refusal::Disk => 11,
            Refusal::Open => 12,
            Refusal::Closed => 13,
            Refusal::Unsound => 14,
            Refusal::Clock => 15,
            Refusal::Method => 16,
            Refusal::Field => 17,
            Refusal::OwnError => 18,
            Refusal::NoTicket => 19,
            Refusal::Full => 20,
            Refusal::Ticket => 21,
        }
    }
}

// What a call answers. Granted: ticket, told, amount. Waits and Released: ticket.
#[derive(Clone, Copy, PartialEq, Eq, Debug)]
pub enum Answer {
    Granted(u32, i32, u32),
    Waits(u32),
    Released(u32),
    Opened,
    Refused(Refusal),
}

// An item of the answer buffer as it shows.
#[derive(Clone, Copy, PartialEq, Eq, Debug, Default)]
pub struct Shown {
    pub code: u32,
    pub ticket: u32,
    pub told: i32,
    pub amount: u32,
}

// The item of an answer. Its code is what the call returns. Waits and released carry only the ticket, opened and a refusal nothing.
impl From<Answer> for Shown {
    ghost from_gives = { λ a s. s ≡ shown_of a };

    fn from(a: Answer) -> Shown {
        let (code, ticket, told, amount) = match a {
            Answer::Granted(ticket, told, amount) => (0, ticket, told, amount),
            Answer::Waits(ticket) => (1, ticket, 0, 0),
            Answer::Released(ticket) => (2, ticket, 0, 0),
            Answer::Opened => (3, 0, 0, 0),
            Answer::Refused(r) => (u32::from(r), 0, 0, 0),
        };
        Shown {
            code,
            ticket,
            told,
            amount,
        }
    }
}

// Makes the buffer an answer with no grant behind it; returns its code.
pub fn put_answer(out: &mut [u8; ANSWER_BYTES], a: Answer) -> u32
    ensures value { result ≡ code_of a }
    ensures out_after { out.new ≡ answer_bytes a [] }
{
    let item = Shown::from(a);
    out.fill(0);
    put_item(out, 0, item);
    item.code
}

// Puts a grant of the pass into the buffer, the k-th behind the call's own answer.
pub fn put_grant(out: &mut [u8; ANSWER_BYTES], k: usize, ticket: u32, told: i32, amount: u32)
    requires { k < 8 }
    ensures { out.new ≡ splice out.old (16 + 16 * k) (item_bytes (Granted ticket told amount)) }
{
    let item = Shown {
        code: 0,
        ticket,
        told,
        amount,
    };
    put_item(out, ITEM_BYTES + ITEM_BYTES * k, item);
}

// The four figures of an item, one after the other.
fn put_item(out: &mut [u8], at: usize, item: Shown)
    requires { at + 16 ≤ length out.old }
    ensures { out.new ≡ splice out.old at (shown_bytes item) }
{
    put_word(out, at, item.code);
    put_word(out, at + 4, item.ticket);
    put_word(out, at + 8, to_word(item.told));
    put_word(out, at + 12, item.amount);
}

// Item k of an answer buffer: 0 the call's own answer, 1 to 8 the grants of its pass. A buffer of another length shows nothing, and
// there is no item above 8.
pub fn shown_at(answer: &[u8], k: usize) -> Shown
    ensures { result ≡ shown_at answer.now k }
{
    if answer.len() != ANSWER_BYTES || MOST_GRANTS < k {
        return Shown::default();
    }
    let at = ITEM_BYTES * k;
    Shown {
        code: word_at(answer, at),
        ticket: word_at(answer, at + 4),
        told: signed_at(answer, at + 8),
        amount: word_at(answer, at + 12),
    }
}
