//! What is told is gathered on its way to a sink, and put in pieces.

ghost use Rattle.std.specs.Prelude.{◌≡◌, ◌≤◌, [], length, OnOk, OnErr};
ghost use Rattle.event_player.specs.declared.gathering.TheConstants.{ROOM};
ghost use Rattle.xk_base.specs.Outside.{Rose};
ghost use Rattle.xk_ports.specs.Told.{GrowsByProperPrefix};
ghost use Rattle.event_player.specs.Gathering.{Gathers, GathersPart, Puts, text};

use arrayvec::ArrayVec;
use xk_base::Failed;
use xk_ports::{Sink, put_all};

/// How many bytes are held at most.
pub const ROOM: usize = 16_384;

/// Bytes that are held for a sink.
pub type Held = ArrayVec<u8, ROOM>;

/// Puts what is held at once. Where nothing is held the sink isn't asked.
pub fn put_held<K: Sink>(out: &mut K, held: &mut Held) -> Result<(), Failed>
    ensures put { OnOk result (Puts (K.written out.old) (K.written out.new) held.old.items) }
    ensures empty { OnOk result (held.new.items ≡ []) }
    ensures front { OnErr result (GrowsByProperPrefix (K.written out.old) (K.written out.new) held.old.items) }
    ensures cause { OnErr result (Rose (K.faults out.old) (K.faults out.new)) }
    ensures never_falls { K.faults out.old ≤ K.faults out.new }
{
    if held.is_empty() {
        return Ok(());
    }
    put_all(out, held.as_slice())?;
    held.clear();
    Ok(())
}

/// Gathers these bytes, and first puts what is held where there is no room for them.
pub fn gather<K: Sink>(bytes: &[u8], out: &mut K, held: &mut Held) -> Result<(), Failed>
    requires { length bytes.now ≤ ROOM }
    ensures gathered { OnOk result (Gathers (text (K.written out.old) held.old.items) (text (K.written out.new) held.new.items) bytes.now) }
    ensures front { OnErr result (GathersPart (text (K.written out.old) held.old.items)
        (text (K.written out.new) held.new.items) bytes.now) }
    ensures cause { OnErr result (Rose (K.faults out.old) (K.faults out.new)) }
    ensures never_falls { K.faults out.old ≤ K.faults out.new }
{
    if held.remaining_capacity() < bytes.len() {
        put_held(out, held)?;
    }
    match held.try_extend_from_slice(bytes) {
        Ok(()) => Ok(()),
        Err(_) => unreachable!(),
    }
}
