// A request record in lent bytes.

ghost use Rattle.std.specs.Prelude.{◌≡◌};
ghost use Rattle.law.specs.Types.{claim_of};
ghost use Rattle.desk.specs.Record.{kind_of, number_of, well_formed, kind_fits, asked_in, laid_out, RecordIn};

use answer::Refusal;
use law::Claim;
use law::limits::MOST_FLAG;
use num::signed::signed_at;
use num::word::{put_word, word_at};
use part::whole::zero_between;
use rules::method::Unknown;

pub const RECORD_BYTES: usize = 24;

// What its first two bytes are.
const MARK: u8 = 0x52;

const MARK_TOO: u8 = 0x42;

// The places of a record. From 12 on they differ by kind: a claim has a second of measuring, a value and an error, an open the limits
// of used and promised, a release its ticket.
pub const KIND_AT: usize = 2;

pub const DISK_AT: usize = 3;

const METHOD_AT: usize = 4;

const PRIORITY_AT: usize = 5;

const FLAG_AT: usize = 6;

const ZERO_AT: usize = 7;

pub const NOW_AT: usize = 8;

const MEASURED_AT: usize = 12;

pub const TICKET_AT: usize = 12;

const VALUE_AT: usize = 16;

pub const USED_LIMIT_AT: usize = 16;

const ERROR_AT: usize = 20;

pub const PROMISED_LIMIT_AT: usize = 20;

// The kinds of record, 1 to 3.
#[derive(Clone, Copy, PartialEq, Eq, Debug)]
pub enum Kind {
    Open,
    Claim,
    Release,
}

impl TryFrom<u8> for Kind {
    type Error = Unknown;

    ghost try_from_gives = { λ n r. r ≡ kind_of n };

    fn try_from(n: u8) -> Result<Kind, Unknown> {
        match n {
            1 => Ok(Kind::Open),
            2 => Ok(Kind::Claim),
            3 => Ok(Kind::Release),
            _ => Err(Unknown),
        }
    }
}

// The number of a kind.
impl From<Kind> for u8 {
    ghost from_gives = { λ k n. n ≡ number_of k };

    fn from(k: Kind) -> u8 {
        match k {
            Kind::Open => 1,
            Kind::Claim => 2,
            Kind::Release => 3,
        }
    }
}

// The record in lent bytes; one that is not well formed is refused 10.
#[tactic(auto, unfolding(crate::specs::Record::well_formed))]
pub(crate) fn record_in(r: &[u8]) -> Result<&[u8; RECORD_BYTES], Refusal>
    ensures { RecordIn r.now result }
{
    let Ok(record) = <&[u8; RECORD_BYTES]>::try_from(r) else {
        return Err(Refusal::Record);
    };
    if !well_formed(record) {
        return Err(Refusal::Record);
    }
    Ok(record)
}

// Whether the mark is there, byte 7 is zero, the flag is in range, and the kind fits.
#[tactic(auto, unfolding(crate::specs::Record::well_formed))]
fn well_formed(r: &[u8; RECORD_BYTES]) -> bool
    ensures { result ≡ well_formed r.now }
{
    r[0] == MARK
        && r[1] == MARK_TOO
        && r[ZERO_AT] == 0
        && u32::from(r[FLAG_AT]) <= MOST_FLAG
        && kind_fits(r, r[KIND_AT])
}

// Whether the kind is known, and the bytes that it does not use are zero.
fn kind_fits(r: &[u8; RECORD_BYTES], kind: u8) -> bool
    ensures { result ≡ kind_fits r.now kind }
{
    match Kind::try_from(kind) {
        Ok(Kind::Open) => {
            zero_between(r, METHOD_AT, ZERO_AT) & zero_between(r, MEASURED_AT, USED_LIMIT_AT)
        }
        Ok(Kind::Claim) => true,
        Ok(Kind::Release) => {
            zero_between(r, METHOD_AT, ZERO_AT) & zero_between(r, VALUE_AT, RECORD_BYTES)
        }
        Err(Unknown) => false,
    }
}

// The claim that a record asks for, with the ticket that it would take.
#[tactic(auto, unfolding(crate::specs::Record::asked_in))]
pub(crate) fn asked_in(r: &[u8; RECORD_BYTES], ticket: u32) -> Claim
    ensures { result ≡ claim_of (asked_in r.now) ticket }
{
    Claim {
        ticket,
        method: u32::from(r[METHOD_AT]),
        priority: u32::from(r[PRIORITY_AT]),
        flag: u32::from(r[FLAG_AT]),
        measured: word_at(r, MEASURED_AT),
        value: signed_at(r, VALUE_AT),
        error: word_at(r, ERROR_AT),
        told: 0,
        amount: 0,
    }
}

// A record with these fields: the bytes in their order, then the words at 8, 12, 16 and 20. Whether it is well formed is another matter.
#[tactic(auto, unfolding(num::specs::Word::put_word, num::specs::Runs::flat, num::specs::Runs::le4))]
pub fn laid_out(kind: u8, disk: u8, method: u8, priority: u8, flag: u8, words: [u32; 4]) -> [u8; 24]
    ensures { result ≡ laid_out kind disk method priority flag words }
{
    let mut r = [0; 24];
    r[0] = MARK;
    r[1] = MARK_TOO;
    r[KIND_AT] = kind;
    r[DISK_AT] = disk;
    r[METHOD_AT] = method;
    r[PRIORITY_AT] = priority;
    r[FLAG_AT] = flag;
    put_word(&mut r, NOW_AT, words[0]);
    put_word(&mut r, TICKET_AT, words[1]);
    put_word(&mut r, VALUE_AT, words[2]);
    put_word(&mut r, ERROR_AT, words[3]);
    r
}
