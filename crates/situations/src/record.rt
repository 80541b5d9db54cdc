// The record of a row of the table.

ghost use Rattle.std.specs.Prelude.{◌≡◌};
ghost use Rattle.situations.specs.Rows.{record_of};

use crate::rows::{DISK, Row};
use desk::record::{Kind, laid_out};
use num::signed::to_word;

// The record of a row, if it makes a call.
pub(crate) fn record_of(row: Row) -> Option<[u8; 24]>
    ensures { result ≡ record_of row }
{
    match row {
        Row::Open(_, now, used, promised) => {
            let words = [now, 0, used, promised];
            Some(laid_out(u8::from(Kind::Open), DISK, 0, 0, 0, words))
        }
        Row::Claim(disk, now, method, priority, flag, measured, value, error) => {
            let disk = u8::from(disk);
            let words = [now, measured, to_word(value), error];
            Some(laid_out(u8::from(Kind::Claim), disk, method, priority, flag, words))
        }
        Row::Release(now, ticket) => {
            let words = [now, ticket, 0, 0];
            Some(laid_out(u8::from(Kind::Release), DISK, 0, 0, 0, words))
        }
        Row::Show(_) => None,
    }
}
