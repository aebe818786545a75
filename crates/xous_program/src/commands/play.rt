//! `trace`, `run` and `ledger`: the events of a file are played on an image.

ghost use Rattle.std.specs.Prelude.{◌≡◌, ◌≤◌};
ghost use Rattle.machine_model.specs.State.Machine.{Machine};
ghost use Rattle.vm_memory.specs.Memory.{size, store_of};
ghost use Rattle.xk_kernel.specs.Sound.{IsSound, IsUsable, Keeps};
ghost use Rattle.xk_kernel.specs.State.{machine_of};
ghost use Rattle.xk_ports.specs.declared.host.FileSlot.TheVariants.{First};
ghost use Rattle.xous_program.specs.Finish.{EndsBooted, Finishes};
ghost use Rattle.event_player.specs.Gathering.{put};
ghost use Rattle.xous_program.specs.Outcome.InRam.{PlaysInRam, RunsInRam};
ghost use Rattle.xous_program.specs.Outcome.Plays.{EndsPlay};
ghost use Rattle.xous_program.specs.Outcome.Sides.{call_of, host_side, store_side};
ghost use Rattle.program_status.specs.Notes.{sink_side};
ghost use Rattle.xous_program.specs.Outcome.Starts.{Booted};
ghost use Rattle.event_player.specs.Standing.{Begins, room_in, stand};
ghost use Rattle.xous_program.specs.Words.{Plays, play_in};

use crate::commands::booting::boot_image;
use crate::commands::command::PlayWords;
use crate::status::{Ended, Status};
use event_player::{Ending, RunFault, play_file, write_closing};
use std::alloc::Global;
use xk_kernel::Kernel;
use xk_ports::{FileSlot, Host, Sink, SwapStore};

/// Writes what is told at the end of a history that ended in this way, and gives the status.
fn finish<K: Sink, W: SwapStore>(
    kernel: &Kernel<W>,
    play: PlayWords,
    ending: Ending,
    out: &mut K,
) -> Status
    requires sound { IsSound W.SwapStore kernel.now }
    requires usable { IsUsable kernel.now }
    ensures finished { Finishes (play_in play.entry) (machine_of W.held kernel.now) ending
        (sink_side K.Sink out.old out.new) result }
    ensures never_falls { K.faults out.old ≤ K.faults out.new }
{
    let Ok(()) = write_closing(kernel, play.tells, ending, out) else {
        return Status::WriteFault;
    };
    match ending {
        Ending::Played => Status::Done,
        Ending::LimitMet => Status::StepLimit(play.limit),
        Ending::BadLine(line) => Status::EventFault(line),
    }
}

/// Picks the event file, plays its events on a booted kernel, and writes what is told of them.
pub fn play_events<H: Host, K: Sink, W: SwapStore>(
    kernel: &mut Kernel<W>,
    host: &mut H,
    play: PlayWords,
    out: &mut K,
) -> Status
    requires sound { IsSound W.SwapStore kernel.old }
    requires usable { IsUsable kernel.old }
    requires within { (machine_of W.held kernel.old).steps ≤ play.limit }
    ensures played { (start : Machine) → Begins start (stand W.SwapStore kernel.old (put (K.written out.old))) →
        let booted : Booted = record {
          machine = start;
          room = room_in kernel.old;
          slots = (size kernel.old.mem).slots;
        } in let call = call_of (host_side H.Host host.old host.new) (sink_side K.Sink out.old out.new)
        (store_side W.SwapStore (store_of kernel.old.mem) (store_of kernel.new.mem)) result in
        EndsBooted (play_in play.entry) booted call }
    ensures in_ram { (start : Machine) → Begins start (stand W.SwapStore kernel.old (put (K.written out.old))) →
        let booted : Booted = record {
          machine = start;
          room = room_in kernel.old;
          slots = (size kernel.old.mem).slots;
        } in let store = store_of kernel.new.mem in
        PlaysInRam W.SwapStore (play_in play.entry) booted (H.file host.old)
        (store_side W.SwapStore (store_of kernel.old.mem) store) store result }
    ensures sound { IsSound W.SwapStore kernel.new }
    ensures keeps { Keeps W.SwapStore kernel.old kernel.new }
    ensures first { H.left host.new First ≡ H.left host.old First }
    ensures host { H.faults host.old ≤ H.faults host.new }
    ensures out { K.faults out.old ≤ K.faults out.new }
{
    let Ok(()) = host.pick_file(FileSlot::Second, play.events) else {
        return Status::ReadFault;
    };
    match play_file(kernel, host, play.tells, play.limit, out) {
        Ok(ending) => finish(kernel, play, ending, out),
        Err(RunFault::Read) => Status::ReadFault,
        Err(RunFault::Write) => Status::WriteFault,
        Err(RunFault::Swap) => Status::SwapFault,
    }
}

/// Plays the events of a file on an image, and hands the store back.
pub fn play_image<H: Host, K: Sink, W: SwapStore>(
    alloc: Global,
    play: PlayWords,
    host: &mut H,
    out: &mut K,
    store: W,
) -> Ended<W>
    ensures ends { let call = call_of (host_side H.Host host.old host.new) (sink_side K.Sink out.old out.new)
        (store_side W.SwapStore store result.store) result.status in EndsPlay (play_in play.entry) call }
    ensures in_ram { let call = call_of (host_side H.Host host.old host.new) (sink_side K.Sink out.old out.new)
        (store_side W.SwapStore store result.store) result.status in
        RunsInRam W.SwapStore (Plays (play_in play.entry)) call result.store }
    ensures store { W.faults store ≤ W.faults result.store }
    ensures host { H.faults host.old ≤ H.faults host.new }
    ensures out { K.faults out.old ≤ K.faults out.new }
{
    match boot_image(alloc, host, play, store) {
        Ok(mut kernel) => {
            let status = play_events(&mut kernel, host, play, out);
            Ended {
                status,
                store: kernel.close(),
            }
        }
        Err(ended) => ended,
    }
}
