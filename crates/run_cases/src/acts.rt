//! What threads do, as instructions.

ghost use Rattle.std.specs.Prelude.{◌<◌};

use crate::literals::{next_word, number, numbers};
use crate::wrong::Wrong;
use rv32_words::{Insn, encode};
use std::alloc::Global;

/// The size of a page in bytes.
const PAGE: u32 = 4096;

/// The call that asks for the thread's id.
const GET_THREAD_ID: u32 = 42;

/// The register a0.
const A0: u8 = 10;

/// The register of the address to return to.
const RA: u8 = 1;

/// The registers t0 and t1, which are no word of a call.
const T0: u8 = 5;

const T1: u8 = 6;

/// The number of a call by its name.
fn call_number(name: &str) -> Option<u32> {
    match name {
        "MapMemory" => Some(2),
        "Yield" => Some(3),
        "ClaimInterrupt" => Some(5),
        "FreeInterrupt" => Some(6),
        "IncreaseHeap" => Some(10),
        "DecreaseHeap" => Some(11),
        "UpdateMemoryFlags" => Some(12),
        "CreateServer" => Some(14),
        "ReceiveMessage" => Some(15),
        "SendMessage" => Some(16),
        "Connect" => Some(17),
        "CreateThread" => Some(18),
        "UnmapMemory" => Some(19),
        "ReturnMemory" => Some(20),
        "TrySendMessage" => Some(24),
        "ReturnScalar1" => Some(26),
        "ReturnScalar2" => Some(27),
        "TryReceiveMessage" => Some(28),
        "JoinThread" => Some(36),
        "DestroyServer" => Some(41),
        "ForwardMessage" => Some(44),
        _ => None,
    }
}

/// The register gets the word, whose low twelve bits are below 2,048, in two steps.
fn push_word(code: &mut Vec<u32>, rd: u8, word: u32) -> Result<(), Wrong>
    requires { rd < 32 }
{
    let low = word % PAGE;
    if low >= 2048 {
        return Err(Wrong::Number);
    }
    let imm = word - low;
    code.push(encode(Insn::Lui { rd, imm }))?;
    let imm = low as i32;
    code.push(encode(Insn::Addi { rd, rs1: rd, imm }))?;
    Ok(())
}

/// The registers a0 to a7 get these words, in 16 steps.
fn push_words(code: &mut Vec<u32>, words: [u32; 8]) -> Result<(), Wrong> {
    for at in 0..8 {
        push_word(code, A0 + at, words[usize::from(at)])?;
    }
    Ok(())
}

/// Makes a call, named or numbered, with these words, in 17 steps.
fn push_call(alloc: Global, code: &mut Vec<u32>, text: &str) -> Result<(), Wrong> {
    let (name, rest) = next_word(text);
    let mut words = [0; 8];
    words[0] = match call_number(name) {
        None => number(name)?,
        Some(number) => number,
    };
    let arguments = numbers(alloc, rest)?;
    if arguments.len() > 7 {
        return Err(Wrong::Number);
    }
    for (word, argument) in words[1..].iter_mut().zip(arguments.as_slice()) {
        *word = *argument;
    }
    push_words(code, words)?;
    code.push(encode(Insn::Ecall))?;
    Ok(())
}

/// Makes a call that tells the words at these two addresses, in 19 steps.
fn push_tell(code: &mut Vec<u32>, first: u32, second: u32) -> Result<(), Wrong> {
    push_words(code, [GET_THREAD_ID, first, second, 0, 0, 0, 0, 0])?;
    for rd in A0 + 1..A0 + 3 {
        code.push(encode(Insn::Lw {
            rd,
            rs1: rd,
            imm: 0,
        }))?;
    }
    code.push(encode(Insn::Ecall))?;
    Ok(())
}

/// Stores at an address a word, in 5 steps.
fn push_store(code: &mut Vec<u32>, address: u32, word: u32) -> Result<(), Wrong> {
    push_word(code, T0, address)?;
    push_word(code, T1, word)?;
    code.push(encode(Insn::Sw {
        rs1: T0,
        rs2: T1,
        imm: 0,
    }))?;
    Ok(())
}

/// Two numbers, and nothing else.
fn two_numbers(alloc: Global, text: &str) -> Result<(u32, u32), Wrong> {
    match numbers(alloc, text)?.as_slice() {
        [first, second] => Ok((*first, *second)),
        _ => Err(Wrong::Number),
    }
}

/// Appends what a line of a program says: an act, or words.
pub fn push_act(alloc: Global, code: &mut Vec<u32>, text: &str) -> Result<(), Wrong> {
    let (act, rest) = next_word(text);
    match act {
        "call" => push_call(alloc, code, rest)?,
        "tell" => {
            let (first, second) = two_numbers(alloc, rest)?;
            push_tell(code, first, second)?;
        }
        "store" => {
            let (address, word) = two_numbers(alloc, rest)?;
            push_store(code, address, word)?;
        }
        "return" => code.push(encode(Insn::Jalr {
            rd: 0,
            rs1: RA,
            imm: 0,
        }))?,
        "loop" => code.push(encode(Insn::Jal { rd: 0, imm: 0 }))?,
        _ => code.extend_from_slice(numbers(alloc, text)?.as_slice())?,
    }
    Ok(())
}
