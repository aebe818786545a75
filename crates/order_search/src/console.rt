//! The bytes that go to the console while events are played.

ghost use Rattle.std.specs.Prelude.{◌≡◌, []};

use std::alloc::Global;
use xk_base::Failed;
use xk_ports::Sink;

/// A console that keeps its bytes, as long as there is memory.
#[derive(Drop)]
pub(crate) struct Console {
    bytes: Vec<u8>,
    faults: u64,
}

impl Console {
    /// No byte went there yet.
    pub(crate) fn new(alloc: Global) -> Console
        ensures { result.bytes.items ≡ [] }
    {
        Console {
            bytes: Vec::new(alloc),
            faults: 0,
        }
    }

    /// The bytes that went there.
    pub(crate) fn into_bytes(self) -> Vec<u8>
        ensures { result.items ≡ self.bytes.items }
    {
        let Console { bytes, faults: _ } = self;
        bytes
    }
}

impl Sink for Console {
    ghost use Rattle.std.specs.Prelude.{Some, min};
    ghost use Rattle.std.proofs.Common.{arith};

    ghost written = { λ console. Some console.bytes.items };

    ghost faults = { λ console. min console.faults 18446744073709551615 };

    ghost bounded = { λ console. Prim.omega arith };

    fn write(&mut self, bytes: &[u8]) -> Result<usize, Failed> {
        match self.bytes.extend_from_slice(bytes) {
            Ok(()) => Ok(bytes.len()),
            Err(_) => {
                self.faults = self.faults.saturating_add(1);
                Err(Failed)
            }
        }
    }
}
