//! The image of the load.

ghost use Rattle.std.specs.Prelude.{◌≡◌, ◌+◌, ◌≤◌, [], ◌∷◌, IfOk, replicate};
ghost use Rattle.demo_load.specs.Code.{client_code, server_code};
ghost use Rattle.demo_load.specs.Image.{load_args, load_image, process_of_code};
ghost use Rattle.demo_load.specs.declared.TheConstants.{CLIENT_LIMIT};

use crate::code::{CLIENT_SIZE, SERVER_SIZE, append_codes};
use kernel_args::{Args, ProcArgs, Section, write_args};
use std::alloc::Global;
use xk_base::{NoMemory, Row};

/// Where each program stands in its process, and where it begins.
const CODE_ADDRESS: u32 = 0x0001_0000;

/// A section that may be executed.
const EXECUTABLE: u8 = 4;

/// A process of one section, whose code of so many bytes stands at this offset in the file.
fn process_of_code(alloc: Global, load: u32, size: u32) -> Result<ProcArgs, NoMemory>
    ensures { IfOk result (λ process. process ≡ record {
      load = load;
      entry = 0x00010000;
      check = None;
      sections = record { addr = 0x00010000; size = size; flags = 4 } ∷ [];
    }) }
{
    let mut sections = Row::new(alloc);
    sections.push(Section {
        addr: CODE_ADDRESS,
        size,
        flags: EXECUTABLE,
    })?;
    Ok(ProcArgs {
        load,
        entry: CODE_ADDRESS,
        check: None,
        sections,
    })
}

/// The server's process, whose code stands at this offset in the file, and so many clients, whose code stands behind it.
fn processes(alloc: Global, clients: u32, offset: u32) -> Result<Row<ProcArgs>, NoMemory>
    requires { offset ≤ 1000 }
    ensures { IfOk result (λ rows. rows ≡ process_of_code offset server_code
        ∷ replicate clients (process_of_code (offset + 88) client_code)) }
{
    let mut processes = Row::new(alloc);
    processes.push(process_of_code(alloc, offset, SERVER_SIZE)?)?;
    'clients: for made in 0..clients {
        processes.push(process_of_code(alloc, offset + SERVER_SIZE, CLIENT_SIZE)?)?;
    }
    Ok(processes)
}

/// The row of tags of the image.
fn arguments(alloc: Global, clients: u32) -> Result<Args, NoMemory>
    requires { clients ≤ CLIENT_LIMIT }
    ensures { IfOk result (λ args. args ≡ load_args clients) }
{
    let words = 7 + 6 * (1 + clients);
    Ok(Args {
        words,
        version: 1,
        ram_start: 0x4000_0000,
        ram_size: 0x0100_0000,
        ram_name: *b"sram",
        slots: None,
        procs: processes(alloc, clients, 4 * words)?,
        names: Row::new(alloc),
    })
}

/// The image of the load of so many clients, and what its row of tags says.
pub fn load_image(alloc: Global, clients: u32) -> Result<(Args, Row<u8>), NoMemory>
    requires { clients ≤ CLIENT_LIMIT }
    ensures arguments { IfOk result (λ load. load.0 ≡ load_args clients) }
    ensures image { IfOk result (λ load. load.1 ≡ load_image clients) }
{
    let args = arguments(alloc, clients)?;
    let mut image = write_args(alloc, &args)?;
    append_codes(&mut image)?;
    Ok((args, image))
}
