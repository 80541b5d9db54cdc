// The requests, in a table: 01's situations K1 to K13, each under its words, and the printed run.

ghost use Rattle.std.specs.Prelude.{◌≡◌};
ghost use Rattle.situations.specs.Rows.{number_of};

use crate::rows::Disk::{Closed, Opened};
use crate::rows::Row::{Claim, Open, Release, Show};
use crate::rows::Situation::{K, Run};

// One of K1 to K13, or the printed run.
#[derive(Clone, Copy)]
pub enum Situation {
    K(u32),
    Run,
}

// The disk of a claim: the one that each situation opens, or one that stays closed.
#[derive(Clone, Copy)]
pub enum Disk {
    Opened,
    Closed,
}

// The disk of every situation, as in 01's printed run; and the one that stays closed.
pub const DISK: u8 = 3;

const CLOSED_DISK: u8 = 4;

// The number of a disk.
impl From<Disk> for u8 {
    ghost from_gives = { λ d n. n ≡ number_of d };

    fn from(d: Disk) -> u8 {
        match d {
            Disk::Opened => DISK,
            Disk::Closed => CLOSED_DISK,
        }
    }
}

// What a row asks. Each open begins a situation on an empty board.
#[derive(Clone, Copy)]
pub enum Row {
    // The situation, now, limit of used, limit of promised.
    Open(Situation, u32, u32, u32),
    // The disk, now, method, priority, fresh flag, second of measuring, value, own error or stated limit.
    Claim(Disk, u32, u8, u8, u8, u32, i32, u32),
    // Now, ticket.
    Release(u32, u32),
    // The ticket of an active claim, whose told sum and amount are shown.
    Show(u32),
}

const REPORT_USED: u8 = 0;

const ADD_PROMISED: u8 = 1;

const SET_PROMISED: u8 = 2;

const READ_USED: u8 = 4;

const READ_LOAD: u8 = 5;

// Own errors 0, priorities equal, used and promised limit 1,000 unless said.
pub static ROWS: [Row; 87] = [
    // K1 (000's Speed example, in tenths) used limit 10, ReportUsed 100 active: ReportUsed 106, own error 3: granted,
    // amount 9.
    Open(K(1), 0, 10, 1000),
    Claim(Opened, 0, REPORT_USED, 5, 0, 0, 100, 0),
    Claim(Opened, 0, REPORT_USED, 5, 0, 0, 106, 3),
    // K2 the same with 107: granted, 10.
    Open(K(2), 0, 10, 1000),
    Claim(Opened, 0, REPORT_USED, 5, 0, 0, 100, 0),
    Claim(Opened, 0, REPORT_USED, 5, 0, 0, 107, 3),
    // K3 the same with 108: waits.
    Open(K(3), 0, 10, 1000),
    Claim(Opened, 0, REPORT_USED, 5, 0, 0, 100, 0),
    Claim(Opened, 0, REPORT_USED, 5, 0, 0, 108, 3),
    // K4 limit 10, nothing active: own error 10 granted;
    Open(K(4), 0, 10, 1000),
    Claim(Opened, 0, REPORT_USED, 5, 0, 0, 100, 10),
    // 11 refused 18.
    Open(K(4), 0, 10, 1000),
    Claim(Opened, 0, REPORT_USED, 5, 0, 0, 100, 11),
    // K5 AddPromised 300 active: AddPromised -300 granted, amount 0.
    Open(K(5), 0, 1000, 1000),
    Claim(Opened, 0, ADD_PROMISED, 5, 0, 0, 300, 0),
    Claim(Opened, 0, ADD_PROMISED, 5, 0, 0, -300, 0),
    // K6 SetPromised waits.
    Open(K(6), 0, 1000, 1000),
    Claim(Opened, 0, ADD_PROMISED, 5, 0, 0, 300, 0),
    Claim(Opened, 0, SET_PROMISED, 5, 0, 0, 300, 0),
    // K7 ReadLoad active, limit 500, amount 0: AddPromised 500 granted, the reading's amount 500;
    Open(K(7), 0, 1000, 1000),
    Claim(Opened, 0, READ_LOAD, 5, 0, 0, 0, 500),
    Claim(Opened, 0, ADD_PROMISED, 5, 0, 0, 500, 0),
    Show(1),
    // with own error 1, waits.
    Open(K(7), 0, 1000, 1000),
    Claim(Opened, 0, READ_LOAD, 5, 0, 0, 0, 500),
    Claim(Opened, 0, ADD_PROMISED, 5, 0, 0, 500, 1),
    Show(1),
    // K8 instead AddPromised -500: granted, the reading's amount 500.
    Open(K(8), 0, 1000, 1000),
    Claim(Opened, 0, READ_LOAD, 5, 0, 0, 0, 500),
    Claim(Opened, 0, ADD_PROMISED, 5, 0, 0, -500, 0),
    Show(1),
    // K9 used stamped 100, nothing active: fresh ReadUsed at 399 granted,
    Open(K(9), 0, 1000, 1000),
    Claim(Opened, 120, REPORT_USED, 5, 0, 100, 40, 0),
    Release(130, 1),
    Claim(Opened, 399, READ_USED, 5, 1, 0, 0, 0),
    // at 400 waits.
    Open(K(9), 0, 1000, 1000),
    Claim(Opened, 120, REPORT_USED, 5, 0, 100, 40, 0),
    Release(130, 1),
    Claim(Opened, 400, READ_USED, 5, 1, 0, 0, 0),
    // K10 promised 999,999,999, nothing active: AddPromised 1 granted;
    Open(K(10), 0, 1000, 1000),
    Claim(Opened, 0, SET_PROMISED, 5, 0, 0, 999999999, 0),
    Release(0, 1),
    Claim(Opened, 0, ADD_PROMISED, 5, 0, 0, 1, 0),
    // 2 waits.
    Open(K(10), 0, 1000, 1000),
    Claim(Opened, 0, SET_PROMISED, 5, 0, 0, 999999999, 0),
    Release(0, 1),
    Claim(Opened, 0, ADD_PROMISED, 5, 0, 0, 2, 0),
    // K11 used amount 5: ReadUsed, limit 4, waits; ReportUsed of lower priority is granted; its release grants the
    // reading, amount 0.
    Open(K(11), 0, 1000, 1000),
    Claim(Opened, 0, REPORT_USED, 5, 0, 0, 40, 5),
    Release(0, 1),
    Claim(Opened, 0, READ_USED, 5, 0, 0, 0, 4),
    Claim(Opened, 0, REPORT_USED, 4, 0, 0, 50, 0),
    Release(0, 3),
    // K12 AddPromised active, SetPromised waits at priority 7: AddPromised at 7 waits,
    Open(K(12), 0, 1000, 1000),
    Claim(Opened, 0, ADD_PROMISED, 5, 0, 0, 300, 0),
    Claim(Opened, 0, SET_PROMISED, 7, 0, 0, 300, 0),
    Claim(Opened, 0, ADD_PROMISED, 7, 0, 0, 1, 0),
    // at 8 is granted.
    Open(K(12), 0, 1000, 1000),
    Claim(Opened, 0, ADD_PROMISED, 5, 0, 0, 300, 0),
    Claim(Opened, 0, SET_PROMISED, 7, 0, 0, 300, 0),
    Claim(Opened, 0, ADD_PROMISED, 8, 0, 0, 1, 0),
    // K13 eight ReadUsed active:
    Open(K(13), 0, 1000, 1000),
    Claim(Opened, 0, READ_USED, 5, 0, 0, 0, 0),
    Claim(Opened, 0, READ_USED, 5, 0, 0, 0, 0),
    Claim(Opened, 0, READ_USED, 5, 0, 0, 0, 0),
    Claim(Opened, 0, READ_USED, 5, 0, 0, 0, 0),
    Claim(Opened, 0, READ_USED, 5, 0, 0, 0, 0),
    Claim(Opened, 0, READ_USED, 5, 0, 0, 0, 0),
    Claim(Opened, 0, READ_USED, 5, 0, 0, 0, 0),
    Claim(Opened, 0, READ_USED, 5, 0, 0, 0, 0),
    // the ninth waits.
    Claim(Opened, 0, READ_USED, 5, 0, 0, 0, 0),
    Claim(Opened, 0, READ_USED, 5, 0, 0, 0, 0),
    Claim(Opened, 0, READ_USED, 5, 0, 0, 0, 0),
    Claim(Opened, 0, READ_USED, 5, 0, 0, 0, 0),
    Claim(Opened, 0, READ_USED, 5, 0, 0, 0, 0),
    Claim(Opened, 0, READ_USED, 5, 0, 0, 0, 0),
    Claim(Opened, 0, READ_USED, 5, 0, 0, 0, 0),
    Claim(Opened, 0, READ_USED, 5, 0, 0, 0, 0),
    // Eight waiting: the next such claim gets 20.
    Claim(Opened, 0, READ_USED, 5, 0, 0, 0, 0),
    // Closed disk and method 9: 13.
    Claim(Closed, 0, 9, 5, 0, 0, 0, 0),
    // The printed run: open at 100, limits 1,000 and 500; ReportUsed 40,000 own 20 measured 100 at 100; ReadUsed limit
    // 50,000 at 101; ReportUsed 40,600 own 0 measured 102 at 102; release 2 at 103; release 9 at 104; ReadUsed limit 0
    // at 99. All of priority 5, no fresh flag.
    Open(Run, 100, 1000, 500),
    Claim(Opened, 100, REPORT_USED, 5, 0, 100, 40000, 20),
    Claim(Opened, 101, READ_USED, 5, 0, 0, 0, 50000),
    Claim(Opened, 102, REPORT_USED, 5, 0, 102, 40600, 0),
    Release(103, 2),
    Release(104, 9),
    Claim(Opened, 99, READ_USED, 5, 0, 0, 0, 0),
];
