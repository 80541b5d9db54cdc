// What host programs call. Each function here is exported, and is one line over the crate that does the work, with that
// crate's statement. host/build lists the exported names and makes the archive of this crate.

#![tactic(auto)]

ghost use Rattle.std.specs.Prelude.{◌≡◌};
ghost use Rattle.desk.specs.Step.{step_of, stepped};

// One call: any bytes may be lent. The code, and what board and answer hold at the end.
#[unsafe(no_mangle)]
pub extern "C" fn step(board: &mut [u8], r: &[u8], answer: &mut [u8]) -> u32
    ensures { stepped result board.new answer.new ≡ step_of board.old r.now answer.old }
{
    desk::board::step(board, r, answer)
}
