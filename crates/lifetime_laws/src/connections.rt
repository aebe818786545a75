//! How processes are connected to servers. The definitions stand in `specs/` and the lemmas in `proofs/`; the function has no code, and its
//! contract is the theorem.

ghost use Rattle.lifetime_laws.specs.Connecting.{EveryMomentConnectsSo, EveryRunConnectsSo};

/// **A connection comes of its process's own call.** A process that wasn't connected to a server, and is, made a Connect or TryConnect that
/// names the server, or created it. No call of another process, no message and no event connects it.
pub fn connections_come_of_own_calls()
    ensures moments { EveryMomentConnectsSo }
    ensures runs { EveryRunConnectsSo }
{}
