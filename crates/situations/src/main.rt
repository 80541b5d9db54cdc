// 01's situations K1 to K13 and its printed run through the desk: a row of the table is a record, each record is a call of step,
// and its answer buffer is printed. The file `stdout` has the lines that 01 asks for.

#![tactic(auto)]

mod lines;
mod record;
mod rows;

ghost use Rattle.std.specs.Prelude.{◌≡◌};
ghost use Rattle.situations.specs.Rows.{after_row};

use crate::lines::{print_answer, print_shown};
use crate::record::record_of;
use crate::rows::{DISK, ROWS, Row, Situation};
use answer::ANSWER_BYTES;
use desk::board::{BOARD_BYTES, HEAD_BYTES, step};
use part::layout::{ACTIVE_AT, PART_BYTES, SLOT_BYTES};
use part::read::claim_at;
use std::io;

// Where the slots of the disk's active claims begin.
const SLOTS_FROM: usize = HEAD_BYTES + PART_BYTES * DISK as usize + ACTIVE_AT;

// Each open begins a situation on an empty board.
fn main(rt: HostRuntime) -> io::Result<()> {
    let mut board = [0; BOARD_BYTES];
    let mut situation = Situation::Run;
    for row in ROWS.iter() {
        if let Row::Open(begun, ..) = *row {
            board.fill(0);
            situation = begun;
        }
        turn(&rt, &mut board, situation, *row)?;
    }
    Ok(())
}

// One row: makes its call and prints the answer, or prints what it shows.
#[tactic(auto, unfolding(crate::specs::Rows::after_row))]
fn turn(
    rt: &impl Print,
    board: &mut [u8; BOARD_BYTES],
    situation: Situation,
    row: Row,
) -> io::Result<()>
    ensures { board.new ≡ after_row board.old row }
{
    if let Row::Show(ticket) = row {
        return show(rt, board, situation, row, ticket);
    }
    let Some(record) = record_of(row) else {
        return Ok(());
    };
    let mut answer = [0; ANSWER_BYTES];
    step(board, &record, &mut answer);
    print_answer(rt, situation, row, &answer)
}

// Prints the told sum and the amount of the active claim with that ticket.
fn show(
    rt: &impl Print,
    board: &[u8; BOARD_BYTES],
    situation: Situation,
    row: Row,
    ticket: u32,
) -> io::Result<()> {
    for i in 0..8 {
        let c = claim_at(board, SLOTS_FROM + SLOT_BYTES * i);
        if c.ticket == ticket {
            print_shown(rt, situation, row, c)?;
        }
    }
    Ok(())
}
