// The lines of a record's answer: number, disk, code, ticket, told, amount; then each grant of the pass, "+" before the number.

ghost use Rattle.std.specs.Prelude.{◌≡◌, ◌++◌, ◌+◌, ◌≤◌, length};
ghost use Rattle.stopblocker.specs.Text.{decimal};
ghost use Rattle.stopblocker.specs.Lines.{next, figures, lines_of};

use answer::{ANSWER_BYTES, Shown, shown_at};
use arrayvec::ArrayString;
use itoa::Buffer;

// Room for the lines of the 256 records of a run, and of a short last piece: nine lines of at most 72 bytes each.
pub(crate) const LINES_BYTES: usize = 257 * 9 * 72;

// The lines of a run, in memory of a fixed size, with no heap.
pub(crate) type Lines = ArrayString<LINES_BYTES>;

// Adds all lines of one record: that of the call's own answer, then one for each grant of its pass. Items 1 to 8 show the grants; one
// with no ticket shows none, and ends them.
pub(crate) fn put_lines(to: &mut Lines, number: u64, disk: u8, answer: &[u8; ANSWER_BYTES])
    requires { length to.old.bytes + 648 ≤ LINES_BYTES }
    ensures after { to.new.bytes ≡ to.old.bytes ++ lines_of number disk answer.now }
    ensures upper_bound { length to.new.bytes ≤ length to.old.bytes + 648 }
{
    put_line(to, number, disk, shown_at(answer, 0));
    for k in 1..9 {
        let grant = shown_at(answer, k);
        if grant.ticket == 0 {
            break;
        }
        to.push_str("+");
        put_line(to, number, disk, grant);
    }
}

// Adds a line with what an item of the answer buffer shows.
fn put_line(to: &mut Lines, number: u64, disk: u8, item: Shown)
    requires { length to.old.bytes + 71 ≤ LINES_BYTES }
    ensures after { to.new.bytes ≡ to.old.bytes ++ (decimal number ++ (next disk ++ figures item.code item.ticket item.told item.amount)) }
    ensures upper_bound { length to.new.bytes ≤ length to.old.bytes + 71 }
{
    let mut digits = Buffer::new();
    to.push_str(digits.format(number));
    to.push_str(" ");
    to.push_str(digits.format(disk));
    to.push_str(" ");
    to.push_str(digits.format(item.code));
    to.push_str(" ");
    to.push_str(digits.format(item.ticket));
    to.push_str(" ");
    to.push_str(digits.format(item.told));
    to.push_str(" ");
    to.push_str(digits.format(item.amount));
    to.push_str("\n");
}
