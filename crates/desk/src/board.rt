// The board's frame: lengths (9), the record (10), the disk (11), its open bit (12, 13), and the disk's own
// part lent on to be written.

ghost use Rattle.std.specs.Prelude.{◌≡◌, ◌<◌};
ghost use Rattle.law.specs.Calls.{open_disk};
ghost use Rattle.num.specs.Opened.{set_open};
ghost use Rattle.part.specs.Layout.{encode};
ghost use Rattle.desk.specs.Board.{part_of, with_part};
ghost use Rattle.desk.specs.Record.{now_of, call_of, used_limit, promised_limit};
ghost use Rattle.desk.specs.Step.{opening, on_part, serve_of, effect_of, on_board, step_of, stepped, Ends};
ghost use Rattle.desk.specs.Counts.{count_of, open_on};

use crate::record::{
    DISK_AT, KIND_AT, Kind, NOW_AT, PROMISED_LIMIT_AT, RECORD_BYTES, USED_LIMIT_AT, record_in,
};
use crate::serve::serve;
use answer::{ANSWER_BYTES, Answer, Refusal, put_answer};
use num::opened::{is_open, open_count, set_open};
use num::word::word_at;
use part::layout::PART_BYTES;
use part::write::put_disk;
use rules::disk::{Disk, opened};
use rules::fields::limits_fit;

// A head, and behind it a part for each disk.
pub const HEAD_BYTES: usize = 64;

const DISKS: usize = 64;

pub const BOARD_BYTES: usize = 49216;

// One call: any bytes may be lent. The code, and what board and answer hold at the end.
#[tactic(auto, unfolding(crate::specs::Step::step_of))]
pub fn step(board: &mut [u8], r: &[u8], answer: &mut [u8]) -> u32
    ensures { stepped result board.new answer.new ≡ step_of board.old r.now answer.old }
{
    let Some(board) = board.as_mut_array::<BOARD_BYTES>() else {
        return u32::from(Refusal::Length);
    };
    let Some(answer) = answer.as_mut_array::<ANSWER_BYTES>() else {
        return u32::from(Refusal::Length);
    };
    match call(board, r, answer) {
        Ok(code) => code,
        Err(refusal) => put_answer(answer, Answer::Refused(refusal)),
    }
}

// A call on a board: an accepted one puts its answer and returns its code, a refused one leaves the board.
#[tactic(auto, unfolding(crate::specs::Step::effect_of))]
fn call(
    board: &mut [u8; BOARD_BYTES],
    r: &[u8],
    answer: &mut [u8; ANSWER_BYTES],
) -> Result<u32, Refusal>
    ensures { Ends result board.new answer.new (effect_of board.old r.now) }
{
    on_board(board, record_in(r)?, answer)
}

// The same with a well-formed record.
#[tactic(auto, unfolding(crate::specs::Step::on_board))]
fn on_board(
    board: &mut [u8; BOARD_BYTES],
    r: &[u8; RECORD_BYTES],
    answer: &mut [u8; ANSWER_BYTES],
) -> Result<u32, Refusal>
    ensures { Ends result board.new answer.new (on_board board.old r.now) }
{
    let d = usize::from(r[DISK_AT]);
    if DISKS <= d {
        return Err(Refusal::Disk);
    }
    let opened = is_open(board, d);
    if let Ok(Kind::Open) = Kind::try_from(r[KIND_AT]) {
        if opened {
            return Err(Refusal::Open);
        }
        return open_on(board, d, r, answer);
    }
    if !opened {
        return Err(Refusal::Closed);
    }
    serve_on(board, d, r, answer)
}

// A claim or a release on an open disk.
fn serve_on(
    board: &mut [u8; BOARD_BYTES],
    d: usize,
    r: &[u8; RECORD_BYTES],
    answer: &mut [u8; ANSWER_BYTES],
) -> Result<u32, Refusal>
    requires { d < 64 }
    ensures { Ends result board.new answer.new (on_part board.old d (serve_of (part_of board.old d) (call_of r.now))) }
{
    let (_, from_part) = board.split_at_mut(HEAD_BYTES + PART_BYTES * d);
    let Some(part) = from_part.first_chunk_mut::<PART_BYTES>() else {
        unreachable!()
    };
    serve(part, r, answer)
}

// An open of a closed disk.
fn open_on(
    board: &mut [u8; BOARD_BYTES],
    d: usize,
    r: &[u8; RECORD_BYTES],
    answer: &mut [u8; ANSWER_BYTES],
) -> Result<u32, Refusal>
    requires { d < 64 }
    ensures { Ends result board.new answer.new (opening board.old d (open_disk (now_of r.now) (used_limit r.now) (promised_limit r.now))) }
{
    let l0 = word_at(r, USED_LIMIT_AT);
    let l1 = word_at(r, PROMISED_LIMIT_AT);
    if !limits_fit(l0, l1) {
        return Err(Refusal::Field);
    }
    put_open(board, d, opened(word_at(r, NOW_AT), l0, l1));
    Ok(put_answer(answer, Answer::Opened))
}

// The disk's part, and its open bit.
#[tactic(auto, using(crate::proofs::FrameLaws::split_part))]
fn put_open(board: &mut [u8; BOARD_BYTES], d: usize, disk: Disk)
    requires { d < 64 }
    ensures { board.new ≡ set_open (with_part board.old d (encode disk)) d }
{
    let (_, from_part) = board.split_at_mut(HEAD_BYTES + PART_BYTES * d);
    let Some(part) = from_part.first_chunk_mut::<PART_BYTES>() else {
        unreachable!()
    };
    put_disk(part, disk);
    set_open(board, d);
}

// The number of open disks; a board of another length is refused.
#[tactic(auto, unfolding(crate::specs::Counts::count_of))]
pub fn open_disks(board: &[u8]) -> Result<u32, Refusal>
    ensures { result ≡ count_of board.now }
{
    if board.len() != BOARD_BYTES {
        return Err(Refusal::Length);
    }
    Ok(open_count(board))
}

// Whether a disk is open: none is on a board of another length, and there is none above 63.
#[tactic(auto, unfolding(crate::specs::Counts::open_on))]
pub fn open_at(board: &[u8], d: usize) -> bool
    ensures { result ≡ open_on board.now d }
{
    board.len() == BOARD_BYTES && d < DISKS && is_open(board, d)
}
