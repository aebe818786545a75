//! A service may be exchanged. The function does nothing; its contract is the law.

ghost use Rattle.std.specs.Prelude.{◌≡◌};
ghost use Rattle.program_laws.specs.ExchangedCalls.{Exchange, IsExchange};
ghost use Rattle.xous_program.specs.Headline.{IsComplete};
ghost use Rattle.xous_program.specs.Outcome.Sides.{Call};
ghost use Rattle.xous_program.specs.Outcome.SplitCalls.{EndAlike, PlaysOn};
ghost use Rattle.xous_program.specs.Words.{Play, Plays};

/// Two complete calls of one command, `trace`, `run` or `ledger`, that play the same events on two images of one plan, which differ in the
/// pages of a group of processes alone, end with one status and write the same, where the group acts alike at each moment of both runs.
pub fn exchanged_calls_end_alike()
    ensures { (exchange : Exchange) (play twin : Play) (call answer : Call) → IsExchange exchange
        → PlaysOn exchange.one exchange.events play call → PlaysOn exchange.other exchange.events twin answer
        → IsComplete (Plays play) call → IsComplete (Plays twin) answer
        → play.tells ≡ twin.tells → play.limit ≡ exchange.limit → twin.limit ≡ exchange.limit → EndAlike call answer }
{}
