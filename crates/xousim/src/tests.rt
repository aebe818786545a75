//! The first run over objects that never fail, and each real adapter once.

use crate::xous_main;
use host_io::{ErrSink, FileHost, ProgramStore, RealDisk, StdSink};
use std::alloc::{AllocError, Global};
use std::fs;
use std::fs::{File, OpenOptions};
use std::process::Abort;
use std::test::Fail;
use xk_ports::{Host, MemHost, Sink, SureSink, SureStore, SwapStore};
use xous_program::{Ended, Status};

/// A process that maps the console, stores one byte there and loops.
const FIRST_IMAGE: [u8; 88] = [
    0x58, 0x41, 0x72, 0x67, 0xca, 0x7f, 0x05, 0x00, 0x0d, 0x00, 0x00, 0x00, 0x01, 0x00, 0x00, 0x00,
    0x00, 0x00, 0x00, 0x40, 0x00, 0x00, 0x00, 0x01, 0x73, 0x72, 0x61, 0x6d, 0x49, 0x6e, 0x69, 0x45,
    0xd5, 0xfe, 0x04, 0x00, 0x34, 0x00, 0x00, 0x00, 0x00, 0x00, 0x01, 0x00, 0x00, 0x00, 0x01, 0x00,
    0x24, 0x00, 0x00, 0x04, 0x13, 0x05, 0x20, 0x00, 0xb7, 0x05, 0x00, 0xf0, 0x13, 0x06, 0x00, 0x00,
    0xb7, 0x16, 0x00, 0x00, 0x13, 0x07, 0x60, 0x00, 0x73, 0x00, 0x00, 0x00, 0x93, 0x07, 0x80, 0x06,
    0x23, 0x80, 0xf5, 0x00, 0x6f, 0x00, 0x00, 0x00,
];

/// What its first steps tell: the call that maps the console ..
const MAPPED: &str =
    "6 2.2 call 00000002 f0000000 00000000 00001000 00000006 00000000 00000000 00000000
6 2.2 reply 00000003 60000000 00001000 00000000 00000000 00000000 00000000 00000000
";

/// .. and all behind it, up to step 100.
const STORED: &str = "8 2.2 byte 68
end 100 done
";

/// What a run left.
#[derive(Drop)]
struct Left {
    status: Status,
    out: SureSink,
    notes: SureSink,
}

fn words(alloc: Global, texts: &[&str]) -> Result<Vec<String>, AllocError> {
    let mut words = Vec::new(alloc);
    for text in texts {
        words.push(String::from_str(alloc, text)?)?;
    }
    Ok(words)
}

fn file(alloc: Global, name: &str, bytes: &[u8]) -> Result<(String, Vec<u8>), AllocError> {
    let name = String::from_str(alloc, name)?;
    let bytes = bytes.to_vec(alloc)?;
    Ok((name, bytes))
}

/// The image `i`, and the event file `e`, of 100 steps.
fn files(alloc: Global, image: &[u8]) -> Result<Vec<(String, Vec<u8>)>, AllocError> {
    let mut files = Vec::new(alloc);
    files.push(file(alloc, "i", image)?)?;
    files.push(file(alloc, "e", b"tick 100")?)?;
    Ok(files)
}

/// A host of these two.
fn host_of(alloc: Global, image: &[u8]) -> Result<MemHost, Fail> {
    let files = files(alloc, image)?;
    Ok(MemHost::new(alloc, files, 4096, Vec::new(alloc), 100)?)
}

/// How the program ends with these words over these objects.
fn status_of<H: Host, O: Sink, N: Sink, W: SwapStore + Drop>(
    alloc: Global,
    texts: &[&str],
    host: &mut H,
    sinks: (&mut O, &mut N),
    store: W,
) -> Result<Status, Fail> {
    let words = words(alloc, texts)?;
    let (out, notes) = sinks;
    let Ended { status, store: _ } = xous_main(alloc, words.as_slice(), host, out, notes, store);
    Ok(status)
}

/// Runs the program with these words over this host and this store.
fn run<H: Host, W: SwapStore + Drop>(
    alloc: Global,
    texts: &[&str],
    host: &mut H,
    store: W,
) -> Result<Left, Fail> {
    let mut out = SureSink::new(alloc, 1000)?;
    let mut notes = SureSink::new(alloc, 100)?;
    let status = status_of(alloc, texts, host, (&mut out, &mut notes), store)?;
    Ok(Left { status, out, notes })
}

/// Runs it with this image, and with a real file for its slots.
fn run_on_disk(rt: &HostRuntime, image: &[u8], texts: &[&str]) -> Result<Left, Fail> {
    let alloc = rt.alloc();
    let mut host = host_of(alloc, image)?;
    let disk = RealDisk::new(rt);
    run(alloc, texts, &mut host, ProgramStore::new(alloc, &disk))
}

/// The run ended with this status, and wrote just the first two texts, and the last one as its note.
fn expect_left(rt: &impl Abort, left: &Left, status: Status, texts: [&str; 3]) {
    let [first, then, note] = texts;
    assert_eq!(rt; left.status, status);
    let rest = left.out.as_slice().strip_prefix(first.as_bytes());
    assert_eq!(rt; rest, Some(then.as_bytes()));
    assert_eq!(rt; left.notes.as_slice(), note.as_bytes());
}

#[test]
fn first_run_sure(rt: HostRuntime) -> Result<(), Fail> {
    let alloc = rt.alloc();
    let mut host = host_of(alloc, &FIRST_IMAGE)?;
    let left = run(alloc, &["trace", "i", "e"], &mut host, SureStore::new())?;
    expect_left(&rt, &left, Status::Done, [MAPPED, STORED, ""]);
    Ok(())
}

/// A file that isn't there and a folder in place of a file are read faults.
#[test]
fn real_files(rt: HostRuntime) -> Result<(), Fail> {
    let alloc = rt.alloc();
    for name in ["no-such-file", "."] {
        let mut host = FileHost::new(&rt);
        let left = run(alloc, &["trace", name, name], &mut host, SureStore::new())?;
        expect_left(&rt, &left, Status::ReadFault, ["", "", "read fault\n"]);
    }
    Ok(())
}

/// A device that takes nothing.
fn full_device(rt: &HostRuntime) -> Result<File, Fail> {
    Ok(OpenOptions::new().write(true).open(rt, "/dev/full")?)
}

/// A device that takes nothing is a write fault, also on the notes, and no crash or loop.
#[test]
fn real_streams(rt: HostRuntime) -> Result<(), Fail> {
    let alloc = rt.alloc();
    let mut host = host_of(alloc, &FIRST_IMAGE)?;
    let mut out = StdSink::new(full_device(&rt)?);
    let mut notes = ErrSink::new(full_device(&rt)?);
    let sinks = (&mut out, &mut notes);
    let words = ["trace", "i", "e"];
    let status = status_of(alloc, &words, &mut host, sinks, SureStore::new())?;
    assert_eq!(rt; status, Status::WriteFault);
    Ok(())
}

/// The eighth word of its code, which stores on the console: `sb a5, 0(a1)`.
const STORE_ON_CONSOLE: u32 = 0x00F5_8023;

/// A word that stores on the stack: `sw a5, -4(sp)`.
const STORE_ON_STACK: u32 = 0xFEF1_2E23;

/// The first image with a RAM of 23 frames, of which one is left for pages, and with this eighth word of code.
fn one_frame_image(eighth: u32) -> [u8; 88] {
    let mut image = FIRST_IMAGE;
    image[20..24].copy_from_slice(&[0x00, 0x70, 0x01, 0x00]);
    // The check number over the tag with it.
    image[4..6].copy_from_slice(&[0xe9, 0x61]);
    image[80..84].copy_from_slice(&eighth.to_le_bytes());
    image
}

fn size_of(rt: &HostRuntime, name: &str) -> Result<usize, Fail> {
    let file = fs::read(rt, name)?;
    Ok(file.len())
}

/// How many slots of the file have this page.
fn slots_with(rt: &HostRuntime, name: &str, page: &[u8; 4096]) -> Result<usize, Fail> {
    let file = fs::read(rt, name)?;
    let slots = file.as_slice().chunks(4096);
    Ok(slots.filter(|slot| *slot == page.as_slice()).count())
}

fn expect_count(rt: &impl Abort, told: usize, wanted: usize) {
    assert_eq!(rt; told, wanted);
}

/// The first run with one frame and nine slots, which stand in a file, is the same over a file that is
/// made and over that of the run before.
#[test]
fn real_store(rt: HostRuntime) -> Result<(), Fail> {
    let name = "full-house.swap";
    let image = one_frame_image(STORE_ON_CONSOLE);
    for _ in 0..2 {
        let left = run_on_disk(&rt, &image, &["trace", "i", "e", "1000", "9", name])?;
        expect_left(&rt, &left, Status::Done, [MAPPED, STORED, ""]);
        expect_count(&rt, size_of(&rt, name)?, 9 * 4096);
    }
    fs::remove_file(&rt, name)?;
    Ok(())
}

/// A run whose last step stores on the stack, in place of the store on the console, leaves that page
/// in RAM. The other nine are the slots': the page of the code and eight of zeros.
#[test]
fn pages_stand_whole_in_their_file(rt: HostRuntime) -> Result<(), Fail> {
    let name = "whole-pages.swap";
    let image = one_frame_image(STORE_ON_STACK);
    let left = run_on_disk(&rt, &image, &["trace", "i", "e", "8", "9", name])?;
    let texts = [MAPPED, "end 8 limit\n", "step limit 8\n"];
    expect_left(&rt, &left, Status::StepLimit(8), texts);
    let mut code = [0; 4096];
    code[..36].copy_from_slice(&image[52..]);
    expect_count(&rt, slots_with(&rt, name, &code)?, 1);
    expect_count(&rt, slots_with(&rt, name, &[0; 4096])?, 8);
    fs::remove_file(&rt, name)?;
    Ok(())
}
