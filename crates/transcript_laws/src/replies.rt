//! Who is answered.

ghost use Rattle.transcript_laws.specs.Answering.{CallsAnswerWhoWaits, RepliesAreDue};

/// **Calls answer who waits.** A served call answers its caller or leaves it waiting, and answers no other thread but one that waits for
/// a message, an answer or the end of a thread. No other thread begins or ceases to wait before the answers are given.
pub fn calls_answer_who_waits()
    ensures { CallsAnswerWhoWaits }
{}

/// **No reply comes to a thread that doesn't wait for one.** Whatever leads from a matched state, each of its replies is to a thread that
/// waits in that state, or to the caller of the step; a retry is the caller's. The start of a handler is no reply, and a thread that
/// waits for nothing gets none.
pub fn replies_are_due()
    ensures { RepliesAreDue }
{}
