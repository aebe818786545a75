//! Images are read and written.

use crate::expecting::expect_eq;
use kernel_args::{Args, ProcArgs, ProcName, Section, crc_x25, read_args, writable, write_args};
use std::alloc::Global;
use std::process::Abort;
use xk_base::{NoMemory, Row};

/// The image of the first run. Its row of tags has 52 bytes; behind them are those of its section.
const FIRST_IMAGE: [u8; 88] = [
    0x58, 0x41, 0x72, 0x67, 0xca, 0x7f, 0x05, 0x00, 0x0d, 0x00, 0x00, 0x00, 0x01, 0x00, 0x00, 0x00,
    0x00, 0x00, 0x00, 0x40, 0x00, 0x00, 0x00, 0x01, 0x73, 0x72, 0x61, 0x6d, 0x49, 0x6e, 0x69, 0x45,
    0xd5, 0xfe, 0x04, 0x00, 0x34, 0x00, 0x00, 0x00, 0x00, 0x00, 0x01, 0x00, 0x00, 0x00, 0x01, 0x00,
    0x24, 0x00, 0x00, 0x04, 0x13, 0x05, 0x20, 0x00, 0xb7, 0x05, 0x00, 0xf0, 0x13, 0x06, 0x00, 0x00,
    0xb7, 0x16, 0x00, 0x00, 0x13, 0x07, 0x60, 0x00, 0x73, 0x00, 0x00, 0x00, 0x93, 0x07, 0x80, 0x06,
    0x23, 0x80, 0xf5, 0x00, 0x6f, 0x00, 0x00, 0x00,
];

/// `XArg`, an unknown tag at 28, `IniE` at 40 and 64, and `PNam` at 96, 132 bytes in all.
const TWO_PROCESSES: [u8; 132] = [
    0x58, 0x41, 0x72, 0x67, 0x1c, 0xe3, 0x05, 0x00, 0x21, 0x00, 0x00, 0x00, 0x01, 0x00, 0x00, 0x00,
    0x00, 0x00, 0x00, 0x40, 0x00, 0x00, 0x00, 0x01, 0x73, 0x72, 0x61, 0x6d, 0x58, 0x4b, 0x72, 0x6e,
    0xff, 0xab, 0x01, 0x00, 0x07, 0x00, 0x00, 0x00, 0x49, 0x6e, 0x69, 0x45, 0x49, 0x30, 0x04, 0x00,
    0x84, 0x00, 0x00, 0x00, 0x00, 0x00, 0x01, 0x00, 0x00, 0x00, 0x01, 0x00, 0x24, 0x00, 0x00, 0x04,
    0x49, 0x6e, 0x69, 0x45, 0x0e, 0x86, 0x06, 0x00, 0xa8, 0x00, 0x00, 0x00, 0x00, 0x00, 0x01, 0x00,
    0x00, 0x00, 0x01, 0x00, 0x00, 0x10, 0x00, 0x04, 0x00, 0x00, 0x02, 0x00, 0x10, 0x00, 0x00, 0x01,
    0x50, 0x4e, 0x61, 0x6d, 0xe1, 0x0d, 0x07, 0x00, 0x02, 0x00, 0x00, 0x00, 0x04, 0x00, 0x00, 0x00,
    0x69, 0x6e, 0x69, 0x74, 0x03, 0x00, 0x00, 0x00, 0x05, 0x00, 0x00, 0x00, 0x73, 0x68, 0x65, 0x6c,
    0x6c, 0x00, 0x00, 0x00,
];

/// The section of each process.
const CODE: Section = Section {
    addr: 0x1_0000,
    size: 36,
    flags: 4,
};

/// The row has so many words, the name and place of its RAM are those of all these images, and there are so many processes and
/// names.
fn expect_args(rt: &impl Abort, args: &Args, words: u32, processes: usize, names: usize) {
    let told = [args.words, args.ram_start, args.ram_size];
    expect_eq(rt, told, [words, 0x4000_0000, 0x0100_0000]);
    expect_eq(rt, args.ram_name, *b"sram");
    let told = (args.procs.as_slice().len(), args.names.as_slice().len());
    expect_eq(rt, told, (processes, names));
}

/// The process is loaded from here, and has these sections.
fn expect_process(rt: &impl Abort, process: &ProcArgs, load: u32, sections: &[Section]) {
    expect_eq(rt, (process.load, process.entry), (load, 0x1_0000));
    expect_eq(rt, process.sections.as_slice(), sections);
}

/// The name is that of this process.
fn expect_name(rt: &impl Abort, told: &ProcName, pid: u32, name: &[u8]) {
    expect_eq(rt, (told.pid, told.name.as_slice()), (pid, name));
}

#[test]
fn check_numbers(rt: HostRuntime) {
    let told = [crc_x25(b"123456789") as u32, crc_x25(b"") as u32];
    expect_eq(&rt, told, [0x906E, 0]);
}

#[test]
fn args_of_one_process(rt: HostRuntime) {
    let args = read_args(rt.alloc(), &FIRST_IMAGE).expect(&rt, "no fault");
    expect_args(&rt, &args, 13, 1, 0);
    for process in args.procs.as_slice() {
        expect_process(&rt, process, 52, &[CODE]);
    }
    assert!(rt; writable(&args));
    let row = write_args(rt.alloc(), &args).expect(&rt, "memory");
    expect_eq(&rt, row.as_slice(), &FIRST_IMAGE[..52]);
}

#[test]
fn names_of_two_processes(rt: HostRuntime) {
    let args = read_args(rt.alloc(), &TWO_PROCESSES).expect(&rt, "no fault");
    expect_args(&rt, &args, 33, 2, 2);
    if let [first, second] = args.names.as_slice() {
        expect_name(&rt, first, 2, b"init");
        expect_name(&rt, second, 3, b"shell");
    }
}

fn args_of(words: u32, procs: Row<ProcArgs>, names: Row<ProcName>) -> Args {
    Args {
        words,
        version: 1,
        ram_start: 0x4000_0000,
        ram_size: 0x0100_0000,
        ram_name: [0x73, 0x72, 0x61, 0x6d],
        slots: None,
        procs,
        names,
    }
}

fn process_with(alloc: Global, load: u32, sections: &[Section]) -> Result<ProcArgs, NoMemory> {
    let mut row = Row::new(alloc);
    row.extend_from_slice(sections)?;
    Ok(ProcArgs {
        load,
        entry: 0x1_0000,
        check: None,
        sections: row,
    })
}

fn name_of(alloc: Global, pid: u32, text: &[u8]) -> Result<ProcName, NoMemory> {
    let mut name = Row::new(alloc);
    name.extend_from_slice(text)?;
    Ok(ProcName { pid, name })
}

/// Whether a process with a section of this size can be written.
fn is_size(alloc: Global, size: u32) -> Result<bool, NoMemory> {
    let mut procs = Row::new(alloc);
    let section = Section { size, ..CODE };
    procs.push(process_with(alloc, 52, &[section])?)?;
    Ok(writable(&args_of(13, procs, Row::new(alloc))))
}

#[test]
fn sizes_that_can_be_written(rt: HostRuntime) {
    expect_eq(&rt, is_size(rt.alloc(), 0x100_0000), Ok(false));
    expect_eq(&rt, is_size(rt.alloc(), 0xFF_FFFF), Ok(true));
}

/// As many sections as a process may have.
const SECTIONS: [Section; 32] = [CODE; 32];

/// As many processes as there may be with as many sections, each with a name. The row of tags has 7 words for the header,
/// 2 + 2 + 64 for each process, 2 for the tag of names and 4 for each name.
fn largest_args(alloc: Global) -> Result<Args, NoMemory> {
    let mut procs = Row::new(alloc);
    let mut names = Row::new(alloc);
    for i in 0..32u32 {
        procs.push(process_with(alloc, i, &SECTIONS)?)?;
        names.push(name_of(alloc, i + 2, b"process")?)?;
    }
    Ok(args_of(2313, procs, names))
}

/// The processes and names are those of the largest row.
fn expect_largest(rt: &impl Abort, args: &Args) {
    expect_args(rt, args, 2313, 32, 32);
    let mut load = 0u32;
    for (process, name) in args.procs.as_slice().iter().zip(args.names.as_slice()) {
        expect_process(rt, process, load, &SECTIONS);
        expect_name(rt, name, load.wrapping_add(2), b"process");
        load = load.wrapping_add(1);
    }
}

#[test]
fn largest_row_is_read_back(rt: HostRuntime) {
    let args = largest_args(rt.alloc()).expect(&rt, "memory");
    assert!(rt; writable(&args));
    let row = write_args(rt.alloc(), &args).expect(&rt, "memory");
    assert!(rt; row.as_slice().len() == 9252);
    let again = read_args(rt.alloc(), row.as_slice()).expect(&rt, "no fault");
    expect_largest(&rt, &again);
}
