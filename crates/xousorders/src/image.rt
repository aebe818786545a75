//! The image and the events before are read.

ghost use Rattle.std.specs.Option.{option_copied};
ghost use Rattle.std.specs.Prelude.{◌≡◌, ◌≤◌, IfErr, IfOk, Some, length};
ghost use Rattle.host_io.specs.Reading.{IsFile};
ghost use Rattle.xk_base.specs.Outside.{Rose};
ghost use Rattle.xk_base.specs.declared.limits.TheConstants.{IMAGE_LIMIT};
ghost use Rattle.xousorders.specs.Asked.{IsBefore, RefusesEvents, RefusesImage};

use boot_plan::TOO_LONG;
use host_io::{Content, ReadError, read_file};
use kernel_args::ArgFault;
use program_status::Status;
use std::alloc::Global;
use xk_base::limits::{EVENT_FILE_LIMIT, IMAGE_LIMIT};
use xk_ports::{FileSlot, Host};

/// The bytes of the image of that name.
pub fn read_image<H: Host>(alloc: Global, host: &mut H, name: &str) -> Result<Vec<u8>, Status>
    ensures few { IfOk result (λ bytes. length bytes.items ≤ IMAGE_LIMIT) }
    ensures read { IfOk result (λ bytes. IsFile (H.file host.old) name.now bytes.items) }
    ensures refused { let rose = Rose (H.faults host.old) (H.faults host.new) in
        IfErr result (RefusesImage (H.file host.old) name.now rose) }
    ensures file { H.file host.new ≡ H.file host.old }
    ensures never_falls { H.faults host.old ≤ H.faults host.new }
{
    match read_file(alloc, host, FileSlot::First, name, IMAGE_LIMIT as usize) {
        Ok(Content::Whole(bytes)) => Ok(bytes),
        Ok(Content::TooLong) => Err(Status::ImageFault(ArgFault {
            what: TOO_LONG,
            at: 0,
        })),
        Err(ReadError::Fault) => Err(Status::ReadFault),
        Err(ReadError::NoMemory) => Err(Status::NoMemory),
    }
}

/// The bytes of the event file of that name. One that is too long for its events isn't read.
fn read_event_file<H: Host>(alloc: Global, host: &mut H, name: &str) -> Result<Vec<u8>, Status>
    ensures read { IfOk result (λ bytes. IsFile (H.file host.old) name.now bytes.items) }
    ensures refused { let rose = Rose (H.faults host.old) (H.faults host.new) in
        IfErr result (RefusesEvents (H.file host.old) (Some name.now) rose) }
    ensures file { H.file host.new ≡ H.file host.old }
    ensures never_falls { H.faults host.old ≤ H.faults host.new }
{
    let limit = EVENT_FILE_LIMIT as usize;
    match read_file(alloc, host, FileSlot::Second, name, limit) {
        Ok(Content::Whole(bytes)) => Ok(bytes),
        Ok(Content::TooLong) => Err(Status::ReadFault),
        Err(ReadError::Fault) => Err(Status::ReadFault),
        Err(ReadError::NoMemory) => Err(Status::NoMemory),
    }
}

/// The bytes of the event file of that name, or none.
pub fn read_events<H: Host>(
    alloc: Global,
    host: &mut H,
    name: Option<&str>,
) -> Result<Vec<u8>, Status>
    ensures before { IfOk result (λ bytes. IsBefore (H.file host.old) (option_copied name.entry) bytes.items) }
    ensures refused { let rose = Rose (H.faults host.old) (H.faults host.new) in
        IfErr result (RefusesEvents (H.file host.old) (option_copied name.entry) rose) }
    ensures file { H.file host.new ≡ H.file host.old }
    ensures never_falls { H.faults host.old ≤ H.faults host.new }
{
    match name {
        Some(name) => read_event_file(alloc, host, name),
        None => Ok(Vec::new(alloc)),
    }
}
