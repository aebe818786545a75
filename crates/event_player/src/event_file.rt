//! The event file is read in pieces, each event is played as soon as it is known, and what is told
//! of the events of a piece is put before the next piece is read.

ghost use Rattle.std.specs.Prelude.{◌≡◌, ◌≤◌, ◌⊎◌, ◌++◌, ℕ, false, List, IsTrue};
ghost use Rattle.machine_model.specs.State.Machine.{Machine};
ghost use Rattle.vm_memory.specs.Memory.{store_of};
ghost use Rattle.xk_base.specs.declared.limits.TheConstants.{STEP_LIMIT};
ghost use Rattle.xk_base.specs.Outside.{Rose};
ghost use Rattle.xk_kernel.specs.Sound.{IsSound, IsUsable, Keeps};
ghost use Rattle.xk_kernel.specs.State.{machine_of};
ghost use Rattle.xk_kernel.specs.declared.kernel.Kernel.{Kernel};
ghost use Rattle.xk_ports.specs.declared.host.FileSlot.TheVariants.{Second};
ghost use Rattle.event_player.specs.Gathering.{PutsBefore, Text, put, text};
ghost use Rattle.event_player.specs.Playing.{Goes, HasPlayed, Runs, run_from};
ghost use Rattle.event_player.specs.Reading.{AnswersAll, AnswersPiece, WaitsForBytes};
ghost use Rattle.event_player.specs.Serving.{ReadsFile, Serves, of_events, of_file};
ghost use Rattle.event_player.specs.Standing.{Begins, stand};

use crate::ending::Ending;
use crate::events::{PlayFault, play_known};
use crate::gathering::{Held, put_held};
use crate::telling::Telling;
use arrayvec::ArrayVec;
use event_text::EventReader;
use host_io::PIECE;
use xk_kernel::Kernel;
use xk_ports::{FileSlot, Host, Sink, SwapStore};

/// Why a run over an event file stopped early.
#[derive(Clone, Copy, Debug, PartialEq, Eq)]
pub enum RunFault {
    /// The event file couldn't be read.
    Read,
    /// The output couldn't be written.
    Write,
    /// The swap store failed.
    Swap,
}

/// Feeds a piece of the event file to a reader that waits, plays the events that become known and
/// gathers what is told of them, and answers how the history ended, or None where the reader waits
/// for the next piece.
fn feed_piece<K: Sink, W: SwapStore>(
    kernel: &mut Kernel<W>,
    reader: &mut EventReader,
    piece: &[u8],
    tells: Telling,
    limit: u32,
    out: &mut K,
    held: &mut Held,
) -> Result<Option<Ending>, PlayFault>
    requires sound { IsSound W.SwapStore kernel.old }
    requires usable { IsUsable kernel.old }
    requires limit { limit ≤ STEP_LIMIT }
    requires within { (machine_of W.held kernel.old).steps ≤ limit }
    requires waits { WaitsForBytes reader.old }
    ensures goes { let old = stand W.SwapStore kernel.old (text (K.written out.old) held.old.items) in
        let new = stand W.SwapStore kernel.new (text (K.written out.new) held.new.items) in
        (first : Kernel W) (start : Machine) (begun : Text) (taken : List ℕ) → let run = run_from W.SwapStore first tells limit start begun in
        Keeps W.SwapStore first kernel.old → HasPlayed run taken reader.old old → Goes run (taken ++ piece.now) false reader.new new result }
    ensures answers { AnswersPiece reader.old reader.new piece.now result }
    ensures serves { Serves W.SwapStore K.Sink of_events limit kernel.old kernel.new out.old out.new result }
{
    let mut rest = piece;
    'rest: while !rest.is_empty() {
        let taken = reader.feed(rest);
        rest = &rest[taken..];
        match play_known(kernel, reader, tells, limit, out, held)? {
            None => {}
            Some(ending) => return Ok(Some(ending)),
        }
    }
    Ok(None)
}

/// Puts what is held where the store failed: what is told of the steps before. Where a write failed
/// nothing more is put.
fn put_before<K: Sink>(fault: PlayFault, out: &mut K, held: &mut Held) -> PlayFault
    ensures puts { PutsBefore (text (K.written out.old) held.old.items) (K.written out.new) fault result }
    ensures write { result ≡ PlayFault.Write → (fault ≡ PlayFault.Write) ⊎ Rose (K.faults out.old) (K.faults out.new) }
    ensures swap { result ≡ PlayFault.Swap → fault ≡ PlayFault.Swap }
    ensures never_falls { K.faults out.old ≤ K.faults out.new }
{
    match fault {
        PlayFault::Write => PlayFault::Write,
        PlayFault::Swap => match put_held(out, held) {
            Ok(()) => PlayFault::Swap,
            Err(_) => PlayFault::Write,
        },
    }
}

/// Plays the events that become known by a piece of the event file, writes what is told of them, and
/// answers how the history ended, or None where the reader waits for the next piece.
fn play_piece<K: Sink, W: SwapStore>(
    kernel: &mut Kernel<W>,
    reader: &mut EventReader,
    piece: &[u8],
    tells: Telling,
    limit: u32,
    out: &mut K,
) -> Result<Option<Ending>, PlayFault>
    requires sound { IsSound W.SwapStore kernel.old }
    requires usable { IsUsable kernel.old }
    requires limit { limit ≤ STEP_LIMIT }
    requires within { (machine_of W.held kernel.old).steps ≤ limit }
    requires waits { WaitsForBytes reader.old }
    ensures goes { let old = stand W.SwapStore kernel.old (put (K.written out.old)) in
        let new = stand W.SwapStore kernel.new (put (K.written out.new)) in
        (first : Kernel W) (start : Machine) (begun : Text) (taken : List ℕ) → let run = run_from W.SwapStore first tells limit start begun in
        Keeps W.SwapStore first kernel.old → HasPlayed run taken reader.old old → Goes run (taken ++ piece.now) false reader.new new result }
    ensures answers { AnswersPiece reader.old reader.new piece.now result }
    ensures serves { Serves W.SwapStore K.Sink of_events limit kernel.old kernel.new out.old out.new result }
{
    let mut held = ArrayVec::new();
    match feed_piece(kernel, reader, piece, tells, limit, out, &mut held) {
        Ok(ended) => match put_held(out, &mut held) {
            Ok(()) => Ok(ended),
            Err(_) => Err(PlayFault::Write),
        },
        Err(fault) => Err(put_before(fault, out, &mut held)),
    }
}

/// Plays all events that the reader knows, writes what is told of them, and answers how the history
/// ended, or None where the reader waits for bytes.
fn play_end<K: Sink, W: SwapStore>(
    kernel: &mut Kernel<W>,
    reader: &mut EventReader,
    tells: Telling,
    limit: u32,
    out: &mut K,
) -> Result<Option<Ending>, PlayFault>
    requires sound { IsSound W.SwapStore kernel.old }
    requires usable { IsUsable kernel.old }
    requires limit { limit ≤ STEP_LIMIT }
    requires within { (machine_of W.held kernel.old).steps ≤ limit }
    ensures goes { let old = stand W.SwapStore kernel.old (put (K.written out.old)) in
        let new = stand W.SwapStore kernel.new (put (K.written out.new)) in
        (first : Kernel W) (start : Machine) (begun : Text) (taken : List ℕ) → let run = run_from W.SwapStore first tells limit start begun in
        Keeps W.SwapStore first kernel.old → HasPlayed run taken reader.old old → Goes run taken reader.old.finished reader.new new result }
    ensures answers { AnswersAll reader.old reader.new result }
    ensures serves { Serves W.SwapStore K.Sink of_events limit kernel.old kernel.new out.old out.new result }
{
    let mut held = ArrayVec::new();
    match play_known(kernel, reader, tells, limit, out, &mut held) {
        Ok(ended) => match put_held(out, &mut held) {
            Ok(()) => Ok(ended),
            Err(_) => Err(PlayFault::Write),
        },
        Err(fault) => Err(put_before(fault, out, &mut held)),
    }
}

/// Reads the event file that was picked at the second slot, plays its events on a booted kernel,
/// and writes what a command tells of their records. It takes no memory.
pub fn play_file<H: Host, K: Sink, W: SwapStore>(
    kernel: &mut Kernel<W>,
    host: &mut H,
    tells: Telling,
    limit: u32,
    out: &mut K,
) -> Result<Ending, RunFault>
    requires picked { IsTrue (H.is_picked host.old Second) }
    requires sound { IsSound W.SwapStore kernel.old }
    requires usable { IsUsable kernel.old }
    requires limit { limit ≤ STEP_LIMIT }
    requires within { (machine_of W.held kernel.old).steps ≤ limit }
    ensures runs { let old = stand W.SwapStore kernel.old (put (K.written out.old)) in
        let new = stand W.SwapStore kernel.new (put (K.written out.new)) in
        (start : Machine) → Begins start old
        → Runs (run_from W.SwapStore kernel.old tells limit start (put (K.written out.old))) (H.left host.old Second) (H.left host.new Second) new result }
    ensures serves { Serves W.SwapStore K.Sink of_file limit kernel.old kernel.new out.old out.new result }
    ensures reads { ReadsFile H.Host host.old host.new result }
{
    let mut reader = EventReader::new();
    let mut piece = [0u8; PIECE];
    'pieces: loop {
        let Ok(count) = host.read(FileSlot::Second, &mut piece) else {
            return Err(RunFault::Read);
        };
        if count == 0 {
            reader.finish();
            return match play_end(kernel, &mut reader, tells, limit, out) {
                Ok(Some(ending)) => Ok(ending),
                Ok(None) => unreachable!(),
                Err(PlayFault::Write) => Err(RunFault::Write),
                Err(PlayFault::Swap) => Err(RunFault::Swap),
            };
        }
        match play_piece(kernel, &mut reader, &piece[..count], tells, limit, out) {
            Ok(None) => {}
            Ok(Some(ending)) => return Ok(ending),
            Err(PlayFault::Write) => return Err(RunFault::Write),
            Err(PlayFault::Swap) => return Err(RunFault::Swap),
        }
    }
}
