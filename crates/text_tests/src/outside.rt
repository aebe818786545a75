//! Each type in memory through a function that is generic over its trait, with failing calls.

ghost use Rattle.std.specs.Prelude.{◌≡◌, length};

use crate::expecting::expect_eq;
use std::alloc::Global;
use std::process::Abort;
use xk_base::{Failed, Slot};
use xk_ports::{
    FileSlot, Host, MemHost, MemSink, MemStore, StoreFault, SureSink, SureStore, SwapStore, put_all,
};

// Picks the file at the second slot and reads once; answers how many bytes came.
fn read_once<H: Host>(host: &mut H, name: &str, into: &mut [u8; 8]) -> Result<usize, Failed> {
    host.pick_file(FileSlot::Second, name)?;
    host.read(FileSlot::Second, into)
}

// Prepares two slots and puts a page into the second; answers whether it came back, and whether the
// first slot holds zeros.
fn keeps_page<W: SwapStore>(
    alloc: Global,
    store: &mut W,
    page: &[u8; 4096],
) -> Result<bool, StoreFault> {
    store.prepare(alloc, 2, Some("swap"))?;
    let mut first = [1; 4096];
    let mut second = [1; 4096];
    let put = store.put_page(Slot(1), page);
    let got = (
        store.get_page(Slot(0), &mut first),
        store.get_page(Slot(1), &mut second),
    );
    match (put, got) {
        (Ok(()), (Ok(()), Ok(()))) => Ok(first == [0; 4096] && second == *page),
        _ => Err(StoreFault::Failed),
    }
}

/// A host of the file `a` in pieces of 3 bytes, whose second call fails, with room for 3 bytes of names.
fn host(rt: &impl Abort, alloc: Global) -> MemHost {
    let name = String::from_str(alloc, "a").expect(rt, "memory");
    let bytes = b"hello".to_vec(alloc).expect(rt, "memory");
    let files = vec![in alloc; (name, bytes)].expect(rt, "memory");
    let fails = vec![in alloc; 2].expect(rt, "memory");
    MemHost::new(alloc, files, 3, fails, 3).expect(rt, "memory")
}

#[test]
fn host_gives_files_in_pieces(rt: HostRuntime) {
    let mut host = host(&rt, rt.alloc());
    let mut into = [0; 8];
    let first = read_once(&mut host, "a", &mut into);
    let second = read_once(&mut host, "a", &mut into);
    expect_eq(&rt, (first.is_err(), second), (true, Ok(3)));
    expect_eq(&rt, into, *b"hel\0\0\0\0\0");
}

#[test]
fn host_keeps_what_was_asked(rt: HostRuntime) {
    let mut host = host(&rt, rt.alloc());
    let is_there = host.pick_file(FileSlot::First, "b").is_ok();
    expect_eq(&rt, (is_there, host.asked_at(0).is_some()), (false, true));
    // The names, with one byte more for each, have three bytes of room.
    let is_there = host.pick_file(FileSlot::First, "a").is_ok();
    expect_eq(&rt, (is_there, host.asked_at(0).is_some()), (false, false));
}

#[test]
fn sink_fails_at_its_calls(rt: HostRuntime) {
    let fails = vec![in rt.alloc(); 2].expect(&rt, "memory");
    let mut sink = MemSink::new(rt.alloc(), 5, fails).expect(&rt, "memory");
    let first = put_all(&mut sink, b"abc").is_ok();
    let second = put_all(&mut sink, b"x").is_ok();
    let third = put_all(&mut sink, b"defg").is_ok();
    expect_eq(&rt, [first, second, third], [true, false, false]);
    expect_eq(&rt, sink.as_slice(), b"abcde");
}

#[test]
fn sure_sink_drops_what_has_no_room(rt: HostRuntime) {
    let mut sink = SureSink::new(rt.alloc(), 3).expect(&rt, "memory");
    let is_put = put_all(&mut sink, b"abcd").is_ok();
    expect_eq(&rt, (is_put, sink.is_whole()), (true, false));
    expect_eq(&rt, sink.as_slice(), b"abc");
}

#[test]
fn stores_keep_a_page(rt: HostRuntime) {
    let told = keeps_page(rt.alloc(), &mut SureStore::new(), &[7; 4096]);
    expect_eq(&rt, told, Ok(true));
}

#[test]
fn store_fails_at_its_calls(rt: HostRuntime) {
    let fails = vec![in rt.alloc(); 1].expect(&rt, "memory");
    let mut store = MemStore::new(fails);
    let first = keeps_page(rt.alloc(), &mut store, &[7; 4096]);
    let second = keeps_page(rt.alloc(), &mut store, &[7; 4096]);
    expect_eq(&rt, [first, second], [Err(StoreFault::Failed), Ok(true)]);
    expect_eq(&rt, store.preparations().len(), 2);
}
