//! `convert`: an image of version 1 is written as one of version 2.

ghost use Rattle.std.specs.Prelude.{◌≡◌, ◌≤◌, length};
ghost use Rattle.xk_base.specs.declared.limits.TheConstants.{IMAGE_LIMIT};
ghost use Rattle.xk_base.specs.Outside.{Rose};
ghost use Rattle.xous_program.specs.Outcome.Convert.{EndsConvert, Writes};
ghost use Rattle.xous_program.specs.Outcome.Sides.{StoreSide, call_of, host_side};
ghost use Rattle.program_status.specs.Notes.{sink_side};

use crate::commands::booting::plan_image;
use crate::status::Status;
use boot_plan::TOO_LONG;
use kernel_args::{ArgFault, convert, converted_len};
use std::alloc::Global;
use xk_base::NoMemory;
use xk_base::limits::{IMAGE_LIMIT, SLOT_LIMIT};
use xk_ports::{Host, Sink, put_all};

/// Writes the bytes of an image.
fn write_image<K: Sink>(bytes: &[u8], out: &mut K) -> Status
    requires { length bytes.now ≤ IMAGE_LIMIT }
    ensures written { Writes bytes.now (sink_side K.Sink out.old out.new) result }
    ensures cause { result ≡ Status.WriteFault → Rose (K.faults out.old) (K.faults out.new) }
    ensures never_falls { K.faults out.old ≤ K.faults out.new }
{
    match put_all(out, bytes) {
        Ok(()) => Status::Done,
        Err(_) => Status::WriteFault,
    }
}

/// Writes the image of that name in version 2: one of version 2 as it is, one of version 1 converted.
pub fn convert_image<H: Host, K: Sink>(
    alloc: Global,
    image: &str,
    host: &mut H,
    out: &mut K,
) -> Status
    ensures ends { (store : StoreSide) → let call = call_of (host_side H.Host host.old host.new)
        (sink_side K.Sink out.old out.new) store result in EndsConvert image.now call }
    ensures host { H.faults host.old ≤ H.faults host.new }
    ensures out { K.faults out.old ≤ K.faults out.new }
{
    let planned = match plan_image(alloc, host, image, Some(SLOT_LIMIT)) {
        Ok(planned) => planned,
        Err(status) => return status,
    };
    let bytes = planned.bytes.as_slice();
    if planned.args.version != 1 {
        return write_image(bytes, out);
    }
    if converted_len(bytes, &planned.args) > IMAGE_LIMIT as usize {
        return Status::ImageFault(ArgFault {
            what: TOO_LONG,
            at: 0,
        });
    }
    match convert(alloc, bytes, &planned.args) {
        Ok(converted) => write_image(converted.as_slice(), out),
        Err(NoMemory) => Status::NoMemory,
    }
}
