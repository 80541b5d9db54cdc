// The methods of a disk. No other file of the desk knows their numbers: this one says of each method what it sets, adds to and reads,
// as masks with one bit for each attribute, and its row in the compatibility table.

ghost use Rattle.std.specs.Prelude.{◌≡◌, ltb};
ghost use Rattle.law.specs.Entries.{entry_by, kind_at};
ghost use Rattle.law.specs.DiskType.{disk_table};
ghost use Rattle.rules.specs.Methods.{method_of, set_mask, add_mask, read_mask, write_mask, is_reading, is_add, sets_state, bounds_of};
ghost use Rattle.rules.specs.Masks.{word_of, masks_by, masks_of};

use law::Entry;
use law::Entry::{A, D, G, N};
use law::limits::{MOST_ERROR, MOST_FLAG, MOST_STATE, MOST_VALUE};

// The methods, in the order of their numbers, 0 to 6.
#[derive(Clone, Copy, PartialEq, Eq, Debug)]
pub enum Method {
    ReportUsed,
    AddPromised,
    SetPromised,
    SetState,
    ReadUsed,
    ReadLoad,
    ReadState,
}

// The number of no method.
#[derive(Clone, Copy, PartialEq, Eq, Debug)]
pub struct Unknown;

impl TryFrom<u32> for Method {
    type Error = Unknown;

    ghost try_from_gives = { λ m r. r ≡ method_of m };

    #[tactic(auto, unfolding(crate::specs::Methods::method_of))]
    fn try_from(m: u32) -> Result<Method, Unknown> {
        match m {
            0 => Ok(Method::ReportUsed),
            1 => Ok(Method::AddPromised),
            2 => Ok(Method::SetPromised),
            3 => Ok(Method::SetState),
            4 => Ok(Method::ReadUsed),
            5 => Ok(Method::ReadLoad),
            6 => Ok(Method::ReadState),
            _ => Err(Unknown),
        }
    }
}

// The masks: bit 0 used, bit 1 promised, bit 2 state.
pub const USED: u8 = 1;

pub const PROMISED: u8 = 2;

const LOAD: u8 = 3;

pub const STATE: u8 = 4;

// The compatibility table. Row: active method; column: requested.
pub static TABLE: [[Entry; 7]; 7] = [
    [D, A, A, A, G, G, A],
    [A, A, N, A, A, G, A],
    [A, N, D, A, A, G, A],
    [A, A, A, N, A, A, N],
    [G, A, A, A, A, A, A],
    [G, G, G, A, A, A, A],
    [A, A, A, N, A, A, A],
];

// Whether there is such a method.
pub fn is_known(m: u32) -> bool
    ensures { result ≡ ltb m 7 }
{
    Method::try_from(m).is_ok()
}

// What a method does: the masks of what it sets, of what it adds to and of what it reads. And three words of such masks, each with what
// is set in bits 0 to 2, what is added to in bits 3 to 5 and what is read in bits 6 to 8: what the method does; what another claim does
// that has an entry other than A with it; and what one does that has entry N with it.
#[derive(Clone, Copy)]
pub struct Masks {
    pub sets: u8,
    pub adds: u8,
    pub reads: u8,
    pub does: u32,
    pub say: u32,
    pub out: u32,
}

// Three masks in one word.
fn word(sets: u8, adds: u8, reads: u8) -> u32
    ensures { result ≡ word_of sets adds reads }
{
    sets as u32 + 8 * adds as u32 + 64 * reads as u32
}

// The masks of a method that sets, adds to and reads these. A claim has a say on it if it sets what the method touches, adds to what
// the method sets or reads, or reads what the method writes: two adds have no say on each other, nor have two readings. And it keeps
// the method out if of the two one adds to what the other sets; or if both touch the state, and one sets it.
fn doing(sets: u8, adds: u8, reads: u8) -> Masks
    ensures { result ≡ masks_by sets adds reads }
{
    Masks {
        sets,
        adds,
        reads,
        does: word(sets, adds, reads),
        say: word(sets | adds | reads, sets | reads, sets | adds),
        out: word(adds | STATE & (sets | reads), sets, STATE & sets),
    }
}

// The masks of a method. An unknown method does nothing. What depends on the masks alone is computed by the compiler, which makes a
// table of it.
#[tactic(auto, using(crate::proofs::MethodLaws::masks_found))]
pub(crate) fn masks_of(m: u32) -> Masks
    ensures { result ≡ masks_of m }
{
    match Method::try_from(m) {
        Ok(Method::ReportUsed) => doing(USED, 0, 0),
        Ok(Method::AddPromised) => doing(0, PROMISED, 0),
        Ok(Method::SetPromised) => doing(PROMISED, 0, 0),
        Ok(Method::SetState) => doing(STATE, 0, 0),
        Ok(Method::ReadUsed) => doing(0, 0, USED),
        Ok(Method::ReadLoad) => doing(0, 0, LOAD),
        Ok(Method::ReadState) => doing(0, 0, STATE),
        Err(Unknown) => doing(0, 0, 0),
    }
}

// The mask of what a method sets, of what it adds to, of what it reads, and of what it writes, by setting it or adding to it.
pub fn sets(m: u32) -> u8
    ensures { result ≡ set_mask m }
{
    masks_of(m).sets
}

pub fn adds(m: u32) -> u8
    ensures { result ≡ add_mask m }
{
    masks_of(m).adds
}

pub(crate) fn reads(m: u32) -> u8
    ensures { result ≡ read_mask m }
{
    masks_of(m).reads
}

pub fn writes(m: u32) -> u8
    ensures { result ≡ write_mask m }
{
    sets(m) | adds(m)
}

// Whether a method writes nothing: a reading, or an unknown method.
pub fn is_reading(m: u32) -> bool
    ensures { result ≡ is_reading (kind_at disk_table m) }
{
    match Method::try_from(m) {
        Ok(method) => match method {
            Method::ReportUsed | Method::AddPromised | Method::SetPromised | Method::SetState =>
                false,
            Method::ReadUsed | Method::ReadLoad | Method::ReadState => true,
        },
        Err(Unknown) => true,
    }
}

// Whether a method adds.
pub(crate) fn is_add(m: u32) -> bool
    ensures { result ≡ is_add (kind_at disk_table m) }
{
    Method::try_from(m) == Ok(Method::AddPromised)
}

// Whether a method sets the state, whose values are codes.
pub fn sets_state(m: u32) -> bool
    ensures { result ≡ sets_state (kind_at disk_table m) }
{
    Method::try_from(m) == Ok(Method::SetState)
}

// How large the fields of a claim may be: for each field a row of seven, by method. The values come first, then these.
pub const ERRORS_AT: usize = 7;

pub const MEASURED_AT: usize = 14;

pub const FLAGS_AT: usize = 21;

pub const TOLD_AT: usize = 28;

// A state is at most 255, any other value 1,000,000,000, and a reading has none. A write's own error is within the limit of what it
// writes, which is 0 for the state; a reading's is its stated limit. A write is not measured after the clock, and a reading not at all.
// Only a reading may ask for fresh figures, and only a reading is told something.
pub fn bounds(used: u32, promised: u32, clock: u32) -> [u32; 35]
    ensures { result ≡ bounds_of used promised clock }
{
    [
        MOST_VALUE, MOST_VALUE, MOST_VALUE, MOST_STATE, 0, 0, 0, used, promised, promised, 0,
        MOST_ERROR, MOST_ERROR, MOST_ERROR, clock, clock, clock, clock, 0, 0, 0, 0, 0, 0, 0,
        MOST_FLAG, MOST_FLAG, MOST_FLAG, 0, 0, 0, 0, MOST_ERROR, MOST_ERROR, MOST_ERROR,
    ]
}

// The entry of an active method, the row, and a requested one. An unknown method has entry A with all.
pub fn entry(row: u32, col: u32) -> Entry
    ensures { result ≡ entry_by (kind_at disk_table row) (kind_at disk_table col) }
{
    if is_known(row) && is_known(col) {
        return TABLE[row as usize][col as usize];
    }
    Entry::A
}
