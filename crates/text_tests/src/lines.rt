//! The lines of records, and the last line.

use crate::expecting::expect_eq;
use arrayvec::ArrayVec;
use trace_text::{EndWord, end_line, line};
use xk_base::{Pid, Rec, ThreadId, Tid, What};

macro_rules! thread {
    ($pid:literal . $tid:literal) => {
        ThreadId {
            pid: Pid($pid),
            tid: Tid($tid),
        }
    };
}

/// Rows of a table: a record, and its line without the line feed.
macro_rules! rows {
    ($($step:literal $what:expr => $line:literal;)*) => {
        [$((Rec { step: $step, what: $what }, concat!($line, "\n"))),*]
    };
}

/// Each kind of record, and the longest line.
const RECORDS: [(Rec, &str); 9] = rows! {
    6 What::Call(thread!(2 . 2), [2, 0xF000_0000, 0, 0x1000, 6, 0, 0, 0])
        => "6 2.2 call 00000002 f0000000 00000000 00001000 00000006 00000000 00000000 00000000";
    6 What::Reply(thread!(2 . 2), [3, 0x6000_0000, 0x1000, 0, 0, 0, 0, 0])
        => "6 2.2 reply 00000003 60000000 00001000 00000000 00000000 00000000 00000000 00000000";
    8 What::Byte(thread!(2 . 2), 0x68) => "8 2.2 byte 68";
    12 What::Retry(thread!(2 . 2)) => "12 2.2 retry";
    40 What::Fault(thread!(3 . 3), 15, 0x2000_0000) => "40 3.3 fault 15 20000000";
    9 What::End(thread!(2 . 1)) => "9 2.1 end";
    9 What::Irq(Pid(2), 4) => "9 2.1 irq 4";
    40 What::Gone(Pid(3)) => "40 3 gone";
    4_294_967_295 What::Reply(thread!(255 . 255), [0xFFFF_FFFF; 8])
        => "4294967295 255.255 reply ffffffff ffffffff ffffffff ffffffff ffffffff ffffffff ffffffff ffffffff";
};

#[test]
fn each_record(rt: HostRuntime) {
    for (record, wanted) in &RECORDS {
        let mut out = ArrayVec::new();
        line(record, &mut out);
        expect_eq(&rt, out.as_slice(), wanted.as_bytes());
    }
}

const LAST_LINES: [(u32, EndWord, &[u8]); 2] = [
    (100, EndWord::Done, b"end 100 done\n"),
    (50, EndWord::Limit, b"end 50 limit\n"),
];

#[test]
fn last_lines(rt: HostRuntime) {
    for (steps, word, wanted) in LAST_LINES {
        let mut out = ArrayVec::new();
        end_line(steps, word, &mut out);
        expect_eq(&rt, out.as_slice(), wanted);
    }
}
