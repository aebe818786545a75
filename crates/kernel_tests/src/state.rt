//! A sheet is written, and a small state is read and written, whose check number was computed by another program.

use crate::expecting::expect_eq;
use suspend_image::{Sheet, State, begin_state, finish_state, read_state};

#[test]
fn words_are_little_endian(rt: HostRuntime) {
    let mut sheet = Sheet::new(rt.alloc(), 0, 0).expect(&rt, "memory");
    sheet.push_bytes(b"gone".as_slice());
    sheet.clear();
    sheet.push_bytes(b"ab".as_slice());
    sheet.push_word(0x0403_0201);
    expect_eq(&rt, sheet.as_slice(), b"ab\x01\x02\x03\x04");
    sheet.set_word(1, 0x0807_0605);
    expect_eq(&rt, sheet.as_slice(), b"a\x05\x06\x07\x08\x04");
}

/// A state of one dead process, at step 8.
const FILE: [u8; 100] = *b"XousSt01d\x00\x00\x00\x9f\xd3\x00\x00\
\x07\x00\x00\x00\x01\x00\x00\x00\x08\x00\x00\x00\x02\x00\x00\x00\x03\x00\x00\x00\x09\x00\x00\x00\x04\x00\x00\x00\
\x00\x00\x00\x00\x00\x00\x00\x00\x00\x00\x00\x00\x00\x00\x00\x00\x00\x00\x00\x00\x00\x00\x00\x00\
\x00\x00\x00\x00\x00\x00\x00\x00\x00\x00\x00\x00\
\x00\x00\x00\x00\x00\x00\x00\x00\x00\x00\x00\x00\x00\x00\x00\x00\x00\x00\x00\x00";

/// The numbers of the machine, in the order of the file.
fn numbers_of(state: &State) -> [u32; 13] {
    [
        state.cap,
        state.n,
        state.steps,
        state.cursor_pid,
        state.cursor_tid,
        state.next_number,
        state.next_serial,
        state.armed,
        state.compare,
        state.reserved,
        state.reserved_pid,
        state.reserved_tid,
        state.reserved_address,
    ]
}

/// How many rows the parts of a state have: processes, threads, servers, claims, pages and orphans.
fn rows_of(state: &State) -> [usize; 6] {
    [
        state.procs.as_slice().len(),
        state.threads.as_slice().len(),
        state.servers.as_slice().len(),
        state.claims.as_slice().len(),
        state.pages.as_slice().len(),
        state.orphans.as_slice().len(),
    ]
}

#[test]
fn small_state_is_read(rt: HostRuntime) {
    let state = read_state(rt.alloc(), &FILE).expect(&rt, "a state");
    let numbers = [7, 1, 8, 2, 3, 9, 4, 0, 0, 0, 0, 0, 0];
    expect_eq(&rt, numbers_of(&state), numbers);
    expect_eq(&rt, rows_of(&state), [1, 0, 0, 0, 0, 0]);
    for row in state.procs.as_slice() {
        expect_eq(&rt, (row.alive, row.heap), (0, 0));
    }
}

#[test]
fn header_is_set(rt: HostRuntime) {
    let mut sheet = Sheet::new(rt.alloc(), 1, 7).expect(&rt, "memory");
    begin_state(&mut sheet);
    sheet.push_bytes(&FILE[16..]);
    finish_state(&mut sheet);
    expect_eq(&rt, sheet.as_slice(), FILE.as_slice());
}
