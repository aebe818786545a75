//! What happens at servers, and with which words messages are delivered.

ghost use Rattle.std.specs.Prelude.{ℕ, List};
ghost use Rattle.xk_base.specs.declared.events.Event.{Event};
ghost use Rattle.machine_laws.specs.HistoryMoments.{moments_of};
ghost use Rattle.machine_model.specs.Runs.Matched.{Matched};
ghost use Rattle.machine_model.specs.Runs.Moments.{IsRun, Moment};
ghost use Rattle.machine_model.specs.State.Machine.{Machine};
ghost use Rattle.transcript_laws.specs.Answered.{SendersAreAnswered};
ghost use Rattle.transcript_laws.specs.AtServers.{HaveOneServer};
ghost use Rattle.transcript_laws.specs.Contents.{DeliveredAsSent};
ghost use Rattle.transcript_laws.specs.Order.{DeliveredInOrder, OrderKept};
ghost use Rattle.transcript_laws.specs.Serving.{AllAreServed};

/// **Each server does one thing at a time.** In each step, event and end of a turn from a matched state a server stays as it is, is
/// founded without a message, ends with its process or by a call of it, or does one of these: a message that is sent to it or forwarded
/// to it now is its newest queued, or, where none is queued, is received at once by that one of the threads that wait which has the least
/// tid; a thread of its process receives its oldest queued message; one returns a held message, or forwards it to another server, which
/// has it then; or it loses what a process that dies has queued. Each reply that has the words of a message is of one that is received
/// so, to the thread that receives it.
pub fn servers_do_one_thing()
    ensures { AllAreServed }
{}

/// **Each message has one server.** In a run from a matched state a message that is queued or held at a server was there from the start
/// on, or a moment sent or forwarded it there, and it was there ever since, and at no other server. A reply with the message is to a
/// thread that receives at the server that has it, or gets it in that moment, and is of the server's process. Who returns or forwards it
/// is of the process of the server that holds it.
pub fn messages_have_one_server()
    ensures runs { (start : Machine) (moments : List Moment) → Matched start → IsRun start moments → HaveOneServer start moments }
    ensures histories { (events : List Event) (limit : ℕ) (start : Machine) → Matched start
        → HaveOneServer start (moments_of events limit start) }
{}

/// **A message is delivered as it was sent.** In a run from a matched state each reply with a message whose number a moment of the run
/// accepted has the kind, the id and the words of that moment's send. Where it carries pages, the address is the receiver's.
pub fn messages_are_delivered_as_sent()
    ensures runs { (start : Machine) (moments : List Moment) → Matched start → IsRun start moments → DeliveredAsSent start moments }
    ensures histories { (events : List Event) (limit : ℕ) (start : Machine) → Matched start
        → DeliveredAsSent start (moments_of events limit start) }
{}

/// **A server's messages keep their order.** Where one message stands before another in a server's queue, the other isn't what the server
/// gives next, in any later state of a run from a matched state up to which the one stayed queued there.
pub fn messages_keep_their_order()
    ensures runs { (start : Machine) (moments : List Moment) → Matched start → IsRun start moments → OrderKept start moments }
    ensures histories { (events : List Event) (limit : ℕ) (start : Machine) → Matched start
        → OrderKept start (moments_of events limit start) }
{}

/// **Messages are delivered in the order in which they came.** In a run from a matched state a message that comes to a server, sent or
/// forwarded, joins its queue behind all that wait there. While one waits, none is delivered that didn't wait, too. One that stands
/// before another is delivered before it, by a record of an earlier moment, or is given up with the process whose thread waits for its
/// answer. So where none is given up the k-th that comes to a server is the k-th that it delivers.
pub fn messages_are_delivered_in_order()
    ensures runs { (start : Machine) (moments : List Moment) → Matched start → IsRun start moments → DeliveredInOrder start moments }
    ensures histories { (events : List Event) (limit : ℕ) (start : Machine) → Matched start
        → DeliveredInOrder start (moments_of events limit start) }
{}

/// **A sender's reply is the return of its message.** Whatever leads from a matched state, a reply to a thread that waits for the answer
/// to a message has the words of the return of that very message, which the caller of the step makes; or it tells that there is no
/// server, and the server that has the message ends now: its process dies, or a thread of it destroys the server. So it is also where
/// sender and server are of one process.
pub fn senders_get_their_return()
    ensures { SendersAreAnswered }
{}
