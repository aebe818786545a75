//! A small state is read and written again.

use crate::{Sheet, begin_state, finish_state, read_state};

/// A state of one dead process, at step 8. Its check number was computed by another program.
const FILE: [u8; 100] = *b"XousSt01d\x00\x00\x00\x9f\xd3\x00\x00\
\x07\x00\x00\x00\x01\x00\x00\x00\x08\x00\x00\x00\x02\x00\x00\x00\x03\x00\x00\x00\x09\x00\x00\x00\x04\x00\x00\x00\
\x00\x00\x00\x00\x00\x00\x00\x00\x00\x00\x00\x00\x00\x00\x00\x00\x00\x00\x00\x00\x00\x00\x00\x00\
\x00\x00\x00\x00\x00\x00\x00\x00\x00\x00\x00\x00\
\x00\x00\x00\x00\x00\x00\x00\x00\x00\x00\x00\x00\x00\x00\x00\x00\x00\x00\x00\x00";

#[test]
fn small_state_is_written(rt: HostRuntime) {
    let (Ok(state), Ok(mut sheet)) = (
        read_state(rt.alloc(), FILE.as_slice()),
        Sheet::new(rt.alloc(), 1, 7),
    ) else {
        panic!(rt; "no state");
    };
    let [row] = state.procs.as_slice() else {
        panic!(rt; "one process");
    };
    let numbers = [
        state.cap,
        state.n,
        state.steps,
        state.cursor_pid,
        state.cursor_tid,
        state.next_number,
        state.next_serial,
        state.armed,
        state.compare,
        state.reserved,
        state.reserved_pid,
        state.reserved_tid,
        state.reserved_address,
        row.alive,
        row.heap,
    ];
    // Behind them are no connections, threads, servers, claims, pages and orphans.
    let mut parts = [0; 84];
    for k in 0..numbers.len() {
        parts[4 * k..4 * k + 4].copy_from_slice(&numbers[k].to_le_bytes());
    }
    begin_state(&mut sheet);
    sheet.push_bytes(&parts);
    assert!(rt; sheet.as_slice().len() == 100);
    finish_state(&mut sheet);
    assert_eq!(rt; sheet.as_slice(), FILE.as_slice());
}
