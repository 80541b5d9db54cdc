// The program: answers the records of standard input, a line each, until the input ends or the lines cannot be written.

#![tactic(auto)]

mod lines;

ghost use Rattle.std.specs.Prelude.{◌≡◌, [], ◌++◌, ◌+◌, ◌-◌, ◌*◌, ◌^◌, ◌≤◌, ◌<◌, length, IfSome, MatchOption};
ghost use Rattle.num.specs.Runs.{splice};
ghost use Rattle.records.specs.Pieces.{span, bytes_of};
ghost use Rattle.stopblocker.specs.declared.TheConstants.{RUN_BYTES};
ghost use Rattle.stopblocker.specs.Answering.{called, shown_disk, answer_lines, due_at, reached, answered_run};

use crate::lines::{LINES_BYTES, Lines, put_lines};
use answer::{ANSWER_BYTES, Refusal};
use desk::board::{BOARD_BYTES, step};
use records::{Piece, piece_in};
use std::io::{Read, Write};

// 256 records of 24 bytes.
const RUN_BYTES: usize = 256 * 24;

// At most this many bytes and one run are read, so that a record's number fits its 64 bits.
const MOST_BYTES: u64 = u64::MAX - RUN_BYTES as u64;

fn main(rt: HostRuntime) {
    let mut board = [0; BOARD_BYTES];
    let mut run = Run {
        bytes: [0; RUN_BYTES],
        have: 0,
    };
    let mut lines = Lines::new();
    answer_input(
        &mut rt.stdin(),
        &mut rt.stdout(),
        &mut board,
        &mut run,
        &mut lines,
    );
}

// Takes turns until no more input comes or the lines cannot be written.
fn answer_input(
    input: &mut impl Read,
    output: &mut impl Write,
    board: &mut [u8; BOARD_BYTES],
    run: &mut Run,
    lines: &mut Lines,
) {
    let mut taken: u64 = 0;
    let mut number: u64 = 0;
    run.have = 0;
    while taken < MOST_BYTES {
        let Some(t) = turn(input, output, board, run, number, lines) else {
            return;
        };
        taken += t.got as u64;
        number = t.number;
    }
}

// The input of a turn. The first `have` bytes are those of a record that was cut at the end of the turn before.
#[derive(Drop)]
struct Run {
    bytes: [u8; RUN_BYTES],
    have: usize,
    ghost fits: { have ≤ RUN_BYTES },
}

impl Run {
    // Reads input behind the bytes of the cut record; returns how many bytes came, 0 at the end of the input.
    fn read_behind(&mut self, input: &mut impl Read) -> usize
        ensures have_kept { self.new.have ≡ self.old.have }
        ensures got_in_bounds { self.new.have + result ≤ RUN_BYTES }
    {
        input.read(&mut self.bytes[self.have..]).unwrap_or(0)
    }

    // Moves the bytes from `at` up to `end` to the front, as those of the next cut record.
    fn carry(&mut self, at: usize, end: usize)
        requires at_le_end { at ≤ end }
        requires end_in_bounds { end ≤ RUN_BYTES }
        ensures have_after { self.new.have ≡ end - at }
        ensures bytes_after { self.new.bytes ≡ splice self.old.bytes 0 (bytes_of self.old.bytes (span at end)) }
    {
        self.bytes.copy_within(at..end, 0);
        self.have = end - at;
    }
}

// A turn that more may follow: how many bytes it read, and the number of the last record answered.
#[derive(Clone, Copy)]
struct Turned {
    got: usize,
    number: u64,
}

// Reads input behind the bytes of a cut record, answers the records, writes their lines, and keeps the bytes of the next cut record.
// None after the last turn: no more input came, or the lines could not be written.
fn turn(
    input: &mut impl Read,
    output: &mut impl Write,
    board: &mut [u8; BOARD_BYTES],
    run: &mut Run,
    number: u64,
    lines: &mut Lines,
) -> Option<Turned>
    requires run_bound { number + RUN_BYTES < 2 ^ 64 }
    ensures got_above { IfSome result (λ t. 0 < t.got) }
    ensures got_in_bounds { IfSome result (λ t. t.got ≤ RUN_BYTES) }
    ensures have_bound { IfSome result (λ t. t.number + run.new.have ≤ number + run.old.have + t.got) }
{
    let got = run.read_behind(input);
    let last = got == 0;
    let end = run.have + got;
    let a = answer_run(board, &run.bytes[..end], number, last, lines);
    let written = output.write_all(lines.as_bytes());
    if last || written.is_err() {
        return None;
    }
    run.carry(a.at, end);
    Some(Turned {
        got,
        number: a.number,
    })
}

// How far a run has been answered: the number of the last record, and the place behind it.
#[derive(Clone, Copy)]
struct Answered {
    number: u64,
    at: usize,
}

// Answers the pieces of a run that are due, with one call of the desk each; their lines, one behind the other, are all that `lines`
// then holds.
fn answer_run(
    board: &mut [u8; BOARD_BYTES],
    run: &[u8],
    from: u64,
    last: bool,
    lines: &mut Lines,
) -> Answered
    requires run_in_bounds { 27 * length run.now + 648 ≤ LINES_BYTES }
    requires run_bound { from + length run.now < 2 ^ 64 }
    ensures at_after { reached board.new lines.new.bytes result.number result.at ≡ answered_run board.old run.now from last }
    ensures at_in_bounds { result.at ≤ length run.now }
    ensures number_bound { result.number ≤ from + result.at }
{
    lines.clear();
    let mut number = from;
    let mut at: usize = 0;
    while let Some(to) = due(run, at, last) {
        number += 1;
        answer_piece(board, &run[at..to], number, lines);
        at = to;
    }
    Answered { number, at }
}

// Where the piece at `at` ends, if it is due. A short piece is due only if no more bytes come.
fn due(run: &[u8], at: usize, last: bool) -> Option<usize>
    ensures { MatchOption result (due_at run.now at last ≡ at) (λ to. (at < to) × (to ≡ due_at run.now at last)) }
{
    match piece_in(run, at) {
        Piece::Record(to) => Some(to),
        Piece::Short(to) => if last { Some(to) } else { None },
        Piece::End => None,
    }
}

// One call of the desk; adds its lines.
#[tactic(auto, unfolding(crate::specs::Answering::answer_lines))]
fn answer_piece(board: &mut [u8; BOARD_BYTES], r: &[u8], number: u64, lines: &mut Lines)
    requires { length lines.old.bytes + 648 ≤ LINES_BYTES }
    ensures board_after { board.new ≡ (called board.old r.now).bytes }
    ensures lines_after { lines.new.bytes ≡ lines.old.bytes ++ answer_lines board.old r.now number }
    ensures upper_bound { length lines.new.bytes ≤ length lines.old.bytes + 648 }
{
    let mut answer = [0; ANSWER_BYTES];
    let code = step(board, r, &mut answer);
    put_lines(lines, number, disk_shown(r, code), &answer);
}

// The disk to show: byte 3 of the record, or 0 if it was refused 10.
#[tactic(auto, unfolding(crate::specs::Answering::shown_disk))]
fn disk_shown(r: &[u8], code: u32) -> u8
    ensures { result ≡ shown_disk code r.now }
{
    if code == u32::from(Refusal::Record) {
        return 0;
    }
    r.get(3).copied().unwrap_or(0)
}
