//! The events of a file, and its first bad line.

use crate::expecting::expect_eq;
use event_text::{Event, EventReader, NextEvent};
use std::process::Abort;
use xk_base::{Pid, Tid};

/// The reader gives these answers when the file comes in pieces of this many bytes.
fn expect_answers(rt: &impl Abort, file: &[u8], piece: usize, answers: &[NextEvent]) {
    let mut reader = EventReader::new();
    let mut rest = file;
    for answer in answers {
        let mut given = NextEvent::More;
        for _ in 0..1000 {
            given = reader.next();
            if given != NextEvent::More {
                break;
            }
            if rest.is_empty() {
                reader.finish();
            } else {
                let taken = reader.feed(&rest[..rest.len().min(piece)]);
                expect_eq(rt, taken > 0, true);
                rest = &rest[taken..];
            }
        }
        expect_eq(rt, given, *answer);
    }
}

/// The second line is bad, and it is answered again.
const BAD_BEHIND_A_TICK: [NextEvent; 3] = [
    NextEvent::Event(Event::Tick(1)),
    NextEvent::Bad(2),
    NextEvent::Bad(2),
];

/// Files, and what the reader answers. The last of the bad lines have more than 64 bytes.
const FILES: [(&[u8], &[NextEvent]); 21] = [
    (
        b"tick 5\r\n   \n# note\n  kill   7  \ntick 4294967295\ntick 4294967296\n",
        &[
            NextEvent::Event(Event::Tick(5)),
            NextEvent::Event(Event::Kill(Pid(7))),
            NextEvent::Event(Event::Tick(4_294_967_295)),
            NextEvent::Bad(6),
            NextEvent::Bad(6),
        ],
    ),
    (
        b" # irq 1\nirq 31\npick 002  0255\r\ntick 0000000007\n\n\r\n  kill 3",
        &[
            NextEvent::Event(Event::Irq(31)),
            NextEvent::Event(Event::Pick(Pid(2), Tid(255))),
            NextEvent::Event(Event::Tick(7)),
            NextEvent::Event(Event::Kill(Pid(3))),
            NextEvent::End,
            NextEvent::End,
        ],
    ),
    (b"", &[NextEvent::End]),
    (b"\n\n\n", &[NextEvent::End]),
    (&[b' '; 64], &[NextEvent::End]),
    (b"tick 1\ntick 4294967296", &BAD_BEHIND_A_TICK),
    (b"tick 1\nirq 32", &BAD_BEHIND_A_TICK),
    (b"tick 1\npick 256 1", &BAD_BEHIND_A_TICK),
    (b"tick 1\npick 1 256", &BAD_BEHIND_A_TICK),
    (b"tick 1\nkill 256", &BAD_BEHIND_A_TICK),
    (b"tick 1\ntick", &BAD_BEHIND_A_TICK),
    (b"tick 1\ntick 1 2", &BAD_BEHIND_A_TICK),
    (b"tick 1\npick 1", &BAD_BEHIND_A_TICK),
    (b"tick 1\ntick 00000000001", &BAD_BEHIND_A_TICK),
    (b"tick 1\ntick\r1", &BAD_BEHIND_A_TICK),
    (b"tick 1\ntick 1\r\r", &BAD_BEHIND_A_TICK),
    (b"tick 1\ntick\t1", &BAD_BEHIND_A_TICK),
    (b"tick 1\nTick 1", &BAD_BEHIND_A_TICK),
    (b"tick 1\ntick -1", &BAD_BEHIND_A_TICK),
    (
        b"tick 1\n                                                                 ",
        &BAD_BEHIND_A_TICK,
    ),
    (
        b"tick 1\n                                                                \r\n",
        &BAD_BEHIND_A_TICK,
    ),
];

#[test]
fn answers_of_files(rt: HostRuntime) {
    for piece in [1usize, 7, 4096] {
        for (file, answers) in &FILES {
            expect_answers(&rt, file, piece, answers);
        }
    }
}
