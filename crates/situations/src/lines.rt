// The lines of the output: the situation and what was asked, then code, ticket, told and amount.

use crate::rows::{Row, Situation};
use answer::{ANSWER_BYTES, Answer, Shown, shown_at};
use law::Claim;
use std::{fmt, io};

impl fmt::Display for Situation {
    fn fmt<W: fmt::Write>(&self, f: &mut fmt::Formatter<W>) -> fmt::Result {
        match *self {
            Situation::Run => write!(f, "run"),
            Situation::K(n) => write!(f, "K{n}"),
        }
    }
}

impl fmt::Display for Row {
    fn fmt<W: fmt::Write>(&self, f: &mut fmt::Formatter<W>) -> fmt::Result {
        match *self {
            Row::Open(..) => write!(f, "open"),
            Row::Claim(..) => write!(f, "claim"),
            Row::Release(..) => write!(f, "release"),
            Row::Show(ticket) => write!(f, "shows {ticket}"),
        }
    }
}

// Prints a refusal's number, or an accepted call's own item and each grant of its pass on its own line.
pub(crate) fn print_answer(
    rt: &impl Print,
    situation: Situation,
    row: Row,
    answer: &[u8; ANSWER_BYTES],
) -> io::Result<()> {
    let Shown {
        code,
        ticket,
        told,
        amount,
    } = shown_at(answer, 0);
    // The codes of refusals come after all others, of which opened is the last.
    if Shown::from(Answer::Opened).code < code {
        return println!(rt; "{situation} {row} refused {code}");
    }
    println!(rt; "{situation} {row} {code} {ticket} {told} {amount}")?;
    for k in 1..9 {
        print_grant(rt, situation, shown_at(answer, k))?;
    }
    Ok(())
}

// Prints a grant of the pass; an unused item has ticket 0.
fn print_grant(rt: &impl Print, situation: Situation, item: Shown) -> io::Result<()> {
    let Shown {
        code,
        ticket,
        told,
        amount,
    } = item;
    if ticket == 0 {
        return Ok(());
    }
    println!(rt; "{situation} + {code} {ticket} {told} {amount}")
}

// Prints the told sum and the amount of the active claim that a row asks for.
pub(crate) fn print_shown(
    rt: &impl Print,
    situation: Situation,
    row: Row,
    c: Claim,
) -> io::Result<()> {
    let Claim { told, amount, .. } = c;
    println!(rt; "{situation} {row} {told} {amount}")
}
