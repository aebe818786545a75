//! What a served call does.

ghost use Rattle.transcript_laws.specs.CallKinds.{CallsAreOfKinds};

/// **A served call is of one kind.** From a matched state a served call is one of these, exactly, with these effects in this order and
/// these answers. It keeps to its process; or it founds a server without a message; or it sends a message, which is queued, or goes to
/// the thread that waits; or it receives the oldest queued message; or none is queued, and it waits or says so; or it returns a held
/// message, whose sender gets the words; or it forwards a held lend with its pages; or it destroys a server of its process, or ends its
/// process. Its number decides which, and for a receive whether a message is queued.
pub fn served_calls_are_of_kinds()
    ensures { CallsAreOfKinds }
{}
