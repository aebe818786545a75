//! A case is read from its lines.

use crate::book::Book;
use crate::case::{Case, Outside, Sweep, Wanted, WantedOut};
use crate::lines::{Block, Line};
use crate::literals::{next_word, number, place, quoted};
use crate::machines::push_image;
use crate::rows::filled;
use crate::steps::do_step;
use crate::transcripts::push_line;
use crate::wrong::{BadLine, Wrong};
use std::alloc::Global;

/// What the lines of depth 2 are of.
#[derive(Clone, Copy, Debug)]
enum Part {
    Nothing,
    /// Steps that make the last file.
    File,
    /// Steps that make the output.
    Out,
    /// Lines of the output.
    Lines,
}

/// What the case says of its output.
#[derive(Clone, Copy, Debug)]
enum Says {
    Nothing,
    Whole,
    Last,
    Any,
}

/// A case that is being read.
#[derive(Debug, Drop)]
struct Draft {
    case: Case,
    part: Part,
    says: Says,
    /// The bytes that it says of its output.
    out: Vec<u8>,
}

/// The words of a command line that a text has between these characters.
fn words_of(alloc: Global, text: &str, between: char) -> Result<Vec<String>, Wrong> {
    let mut words = Vec::new(alloc);
    if text.is_empty() {
        return Ok(words);
    }
    for word in text.split(between) {
        words.push(String::from_str(alloc, word)?)?;
    }
    Ok(words)
}

/// A case with the usual words, outside of which nothing fails, and that wants nothing but that all was done.
fn new_draft(alloc: Global) -> Result<Draft, Wrong> {
    let wanted = Wanted {
        number: 0,
        note: Vec::new(alloc),
        is_noted: true,
        out: WantedOut::Any,
        length: None,
        counts: Vec::new(alloc),
    };
    let outside = Outside {
        piece: 7,
        host: 0,
        out: 0,
        notes: 0,
        store: 0,
    };
    let case = Case {
        words: words_of(alloc, "trace i e", ' ')?,
        files: Vec::new(alloc),
        outside,
        sweep: Sweep::Once,
        wanted,
        keep: None,
    };
    Ok(Draft {
        case,
        part: Part::Nothing,
        says: Says::Nothing,
        out: Vec::new(alloc),
    })
}

/// The file `i` or `e`, or one by its name, begins with these bytes.
fn read_file(
    alloc: Global,
    draft: &mut Draft,
    book: &Book,
    word: &str,
    rest: &str,
) -> Result<bool, Wrong> {
    let mut bytes = Vec::new(alloc);
    let name = match word {
        "file" => rest,
        "image" => {
            bytes.extend_from_slice(book.texts.get(rest)?.as_slice())?;
            "i"
        }
        "machine" => {
            push_image(alloc, &mut bytes, book, rest)?;
            "i"
        }
        "events" => {
            bytes.extend_from_slice(quoted(alloc, rest)?.as_slice())?;
            "e"
        }
        _ => return Ok(false),
    };
    let name = String::from_str(alloc, name)?;
    draft.case.files.push((name, bytes))?;
    draft.part = Part::File;
    Ok(true)
}

/// The call that fails of the host, the output, the notes or the store.
fn read_failing(outside: &mut Outside, text: &str) -> Result<(), Wrong> {
    let (what, call) = next_word(text);
    let call = u64::from(number(call)?);
    match what {
        "host" => outside.host = call,
        "out" => outside.out = call,
        "notes" => outside.notes = call,
        "store" => outside.store = call,
        _ => return Err(Wrong::Keyword),
    }
    Ok(())
}

/// How the program is called.
fn read_call(alloc: Global, case: &mut Case, word: &str, rest: &str) -> Result<bool, Wrong> {
    match word {
        "words" => case.words = words_of(alloc, rest, ' ')?,
        "barred-words" => {
            let text = rest.strip_prefix('"').ok_or(Wrong::Text)?;
            let text = text.strip_suffix('"').ok_or(Wrong::Text)?;
            case.words = words_of(alloc, text, '|')?;
        }
        "pieces" => case.outside.piece = place(rest)?,
        "fails" => read_failing(&mut case.outside, rest)?,
        "each-write-fails" => case.sweep = Sweep::EachWrite,
        "each-store-call-fails" => {
            let (lines, above) = next_word(rest);
            case.sweep = Sweep::EachStoreCall {
                lines: place(lines)?,
                above: u64::from(number(above)?),
            };
        }
        "keep" => case.keep = Some(String::from_str(alloc, rest)?),
        _ => return Ok(false),
    }
    Ok(true)
}

/// What the case wants.
fn read_wanted(alloc: Global, wanted: &mut Wanted, word: &str, rest: &str) -> Result<bool, Wrong> {
    match word {
        "ends" => {
            let (status, note) = next_word(rest);
            wanted.number = number(status)?;
            wanted.note = note.as_bytes().to_vec(alloc)?;
            if !note.is_empty() {
                wanted.note.push(b'\n')?;
            }
        }
        "no-notes" => wanted.is_noted = false,
        "length" => wanted.length = Some(place(rest)?),
        "has" => {
            let (count, text) = next_word(rest);
            let part = quoted(alloc, text)?;
            wanted.counts.push((place(count)?, part))?;
        }
        _ => return Ok(false),
    }
    Ok(true)
}

/// A line of depth 1. The lines below one of the output say what it is.
fn read_keyword(alloc: Global, draft: &mut Draft, book: &Book, text: &str) -> Result<(), Wrong> {
    let (word, rest) = next_word(text);
    draft.part = Part::Nothing;
    if read_file(alloc, draft, book, word, rest)? {
        return Ok(());
    }
    if read_call(alloc, &mut draft.case, word, rest)? {
        return Ok(());
    }
    if read_wanted(alloc, &mut draft.case.wanted, word, rest)? {
        return Ok(());
    }
    let (part, says) = match word {
        "out" => (Part::Lines, Says::Whole),
        "out-by-steps" => (Part::Out, Says::Whole),
        "last-lines" => (Part::Lines, Says::Last),
        "any-out" => (Part::Nothing, Says::Any),
        // These were read before.
        "row" | "rows" => return Ok(()),
        _ => return Err(Wrong::Keyword),
    };
    draft.part = part;
    draft.says = says;
    Ok(())
}

/// A line of depth 2.
fn read_part(alloc: Global, draft: &mut Draft, book: &Book, text: &str) -> Result<(), Wrong> {
    match draft.part {
        Part::Nothing => Err(Wrong::Indent),
        Part::Lines => push_line(&mut draft.out, text),
        Part::Out => do_step(alloc, &mut draft.out, book, text),
        Part::File => match draft.case.files.last_mut() {
            None => Err(Wrong::Indent),
            Some(file) => do_step(alloc, &mut file.1, book, text),
        },
    }
}

/// A line of a case, with the fields of a row in it where there is one.
fn read_line(
    alloc: Global,
    draft: &mut Draft,
    book: &Book,
    line: Line<'_>,
    row: Option<&str>,
) -> Result<(), Wrong> {
    let is_row = line.text.starts_with("row");
    let text = match row {
        Some(row) if !is_row => filled(alloc, line.text, row)?,
        _ => String::from_str(alloc, line.text)?,
    };
    if line.depth == 1 {
        read_keyword(alloc, draft, book, text.as_str())
    } else {
        read_part(alloc, draft, book, text.as_str())
    }
}

/// The case that was read.
fn finished(draft: Draft) -> Result<Case, Wrong> {
    let Draft {
        mut case,
        part: _,
        says,
        out,
    } = draft;
    case.wanted.out = match says {
        Says::Nothing => return Err(Wrong::Output),
        Says::Whole => WantedOut::Whole(out),
        Says::Last => WantedOut::Last(out),
        Says::Any => WantedOut::Any,
    };
    Ok(case)
}

/// The case of a block, for one of its rows where it has rows.
pub fn case_of(
    alloc: Global,
    book: &Book,
    block: &Block<'_>,
    row: Option<&str>,
) -> Result<Case, BadLine> {
    let head = block.head.number;
    let mut draft = new_draft(alloc).map_err(|wrong| wrong.at(head))?;
    for line in &block.lines {
        read_line(alloc, &mut draft, book, *line, row).map_err(|wrong| wrong.at(line.number))?;
    }
    finished(draft).map_err(|wrong| wrong.at(head))
}
