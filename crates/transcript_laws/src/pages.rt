//! How pages come to places of a process.

ghost use Rattle.transcript_laws.specs.Coming.{AllPagesCome};

/// **Pages come by messages alone.** Whatever leads from a matched state: a page that stands where none stood is new, and a thread of that
/// process mapped it or let the heap grow; or a message of kind Move that is sent now brings it from a place of the sender's process,
/// which it leaves. A page is on loan to its holder as before, or a lend that is sent or forwarded now puts it there. Either way the
/// place is of the process of the message's server, and one of the run that the message tells. An orphan is where one was, or where a
/// page was on loan.
pub fn pages_come_by_messages()
    ensures { AllPagesCome }
{}
