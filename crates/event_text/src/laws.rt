//! However a file is cut into pieces, a reader answers its events up to the first bad line, and
//! then that line's number or the end.

ghost use Rattle.event_text.specs.EventFile.{input_of};
ghost use Rattle.event_text.specs.Held.{IsWaiting, Reader, after_next, answer_of, front_of, past_blanks};
ghost use Rattle.event_text.specs.Joined.{JoinedAsk};
ghost use Rattle.event_text.specs.Lines.{whole_lines};
ghost use Rattle.event_text.specs.Plays.{Call, MayFollow, left_of, play_of, with_events};
ghost use Rattle.event_text.specs.declared.event.Line.TheVariants as line;
ghost use Rattle.event_text.specs.declared.event.NextEvent.TheVariants as answer;
ghost use Rattle.std.specs.Prelude.{List, None, Some, true, ◌++◌, ◌≡◌, ◌≢◌, ℕ};

/// After any calls the events answered, and what the lines left ask for, are those of the file.
pub fn events_in_order()
    ensures { (calls : List Call) (more : List ℕ) → MayFollow (play_of calls) more
        → with_events (play_of calls).answered (left_of (play_of calls).reader more)
        ≡ input_of ((play_of calls).taken ++ more) }
{}

/// A bad line that is answered is the first of the file, and its events were answered before.
pub fn first_bad_line()
    ensures { (calls : List Call) (more : List ℕ) (n : ℕ) → MayFollow (play_of calls) more
        → answer_of (play_of calls).reader ≡ answer.Bad n
        → input_of ((play_of calls).taken ++ more)
        ≡ record { events = (play_of calls).answered; bad = Some n } }
{}

/// The end is answered once it was said, after all events of a file without a bad line.
pub fn end_of_file()
    ensures { (calls : List Call) → answer_of (play_of calls).reader ≡ answer.End
        → ((play_of calls).reader.finished ≡ true)
        × (input_of (play_of calls).taken ≡ record { events = (play_of calls).answered; bad = None }) }
{}

/// While a reader waits for bytes, its events answered are those of the whole lines that it took,
/// and none of these is bad.
pub fn whole_lines_answered()
    ensures { (calls : List Call) → IsWaiting (play_of calls).reader
        → input_of (whole_lines (play_of calls).taken) ≡ record { events = (play_of calls).answered; bad = None } }
{}

/// A bad line is answered again from then on.
pub fn bad_line_again()
    ensures { (r : Reader) (n : ℕ) → answer_of r ≡ answer.Bad n → answer_of (after_next r) ≡ answer.Bad n }
{}

/// An answer is by the first line held once no good line at the front is no event.
pub fn no_blank_left()
    ensures { (r : Reader) → front_of (past_blanks r) ≢ Some line.Blank }
{}

/// Two files behind one another, of which the first is whole lines and none of them bad, ask for the events of the first, and then for
/// what the second asks for, its lines counted on.
pub fn joined_files()
    ensures { JoinedAsk }
{}
