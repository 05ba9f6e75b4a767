// The answer to a call, before any list is touched: 16 and refusals 1 to 5 from what was handed over, 6 to 9 from the counts.
ghost use Rattle.std.specs.Prelude.{◌≡◌, ◌≤◌, length};
ghost use Rattle.utf8.specs.Chars.{chars_from};
ghost use Rattle.frame.specs.Bounds.{Small};
ghost use Rattle.reading.specs.Answers.{is_styled, style_of, is_long, ends_in_newline, lacks_newline, mode_of};
ghost use Rattle.laws.specs.Deciding.{refused_as, room_for, early_number};
ghost use Rattle.answer.specs.Refusals.{answer_in};
ghost use Rattle.answer.specs.Decisions.{Admitted, Late, Opened, CountedBy, Decided};
ghost use Rattle.answer.specs.Asking.{freshly, valid_by, OpenedBy, DecidedBy};

use crate::{Asked, Decision, Readable, Refusal};
use frame::{Frame, Mode};
use reading::{Answer, Counts, Request, Rooms};
use utf8::Checked;

// Whether the style is one: at most 255 hashes, and no snippet without a style.
fn is_styled(style: Option<usize>, given: bool) -> bool
    ensures { result ≡ is_styled style given }
{
    match style {
        None => !given,
        Some(hashes) => u8::try_from(hashes).is_ok(),
    }
}

// The style of a frame; hashes above 255 are none that is asked for.
fn style_of(style: Option<usize>) -> Option<u8>
    ensures { result ≡ style_of style }
{
    u8::try_from(style?).ok()
}

// Whether the text, or a snippet that is given, is too long.
fn is_long(text: &[u8], given: bool, snippet: &[u8]) -> bool
    ensures { result ≡ is_long text.now given snippet.now }
{
    if 65535 < text.len() {
        return true;
    }
    if given { 66048 < snippet.len() } else { false }
}

// Whether the text ends in a newline.
fn ends_in_newline(text: &[u8]) -> bool
    ensures { result ≡ ends_in_newline text.now }
{
    let n = text.len();
    if n == 0 {
        return false;
    }
    text[n - 1] == 0x0A
}

// Whether a newline is marked as appended, and the text does not end in one.
fn lacks_newline(text: &[u8], newline: bool) -> bool
    ensures { result ≡ lacks_newline text.now newline }
{
    if newline {
        if ends_in_newline(text) { false } else { true }
    } else {
        false
    }
}

// The mode of a number that `early` let pass; it refuses any other.
fn mode_of(number: u8) -> Mode
    ensures { result ≡ mode_of number }
{
    Mode::try_from(number).unwrap_or(Mode::Diagnostic)
}

// The first list whose room is too small is a refusal.
pub fn room_for(counts: Counts, rooms: Rooms) -> Result<(), Refusal>
    ensures { answer_in result ≡ refused_as (room_for counts rooms) 0 }
{
    if rooms.pieces < counts.pieces {
        return Err(Refusal::Pieces);
    }
    if rooms.errors < counts.errors {
        return Err(Refusal::Errors);
    }
    if rooms.places < counts.places {
        return Err(Refusal::Places);
    }
    if rooms.lines < counts.lines {
        return Err(Refusal::Lines);
    }
    Ok(())
}

// A call without a refusal before its text, which has so many characters, is read.
fn admitted(text: &[u8], chars: usize, snippet: &[u8], request: Request) -> Readable
    ensures { Admitted text.now chars snippet.now request result }
{
    let style = style_of(request.style);
    Readable {
        frame: frame::frame_of(text, style, request.given, snippet, request.newline),
        mode: mode_of(request.mode),
        chars,
    }
}

// Refusals 1 to 3, which need no look at the text's bytes. `over`: more was handed over than the text, and passed the limit.
pub fn early(text: &[u8], over: bool, snippet: &[u8], request: Request) -> Result<(), Refusal>
    ensures { answer_in result ≡ refused_as (early_number over text.now snippet.now request) 0 }
{
    Mode::try_from(request.mode)?;
    if !is_styled(request.style, request.given) {
        return Err(Refusal::Style);
    }
    if over {
        return Err(Refusal::Length);
    }
    if is_long(text, request.given, snippet) {
        return Err(Refusal::Length);
    }
    Ok(())
}

// Refusals 4 and 5, from how far a check of the text came.
pub fn late(
    text: &[u8],
    checked: Checked,
    snippet: &[u8],
    request: Request,
) -> Result<Readable, Refusal>
    ensures { Late text.now checked snippet.now request result }
{
    let valid = checked.valid;
    if valid < text.len() {
        return Err(Refusal::NotUtf8 { valid });
    }
    if lacks_newline(text, request.newline) {
        return Err(Refusal::Newline);
    }
    Ok(admitted(text, checked.chars, snippet, request))
}

// A request for a text of which nothing is known.
pub fn fresh(request: Request) -> Asked
    ensures { result ≡ freshly request }
{
    Asked {
        request,
        unfit: false,
        over: false,
        checked: false,
        valid: 0,
    }
}

// How far the check of a text came: one that was checked as it came is not checked again, and only its characters are counted.
fn check_by(text: &[u8], asked: Asked) -> Checked
    ensures { (result.valid ≡ valid_by asked text.now) × (length text.now ≤ result.valid → result.chars ≡ length (chars_from text.now 0)) }
{
    if asked.checked {
        let chars = utf8::chars_between(text, 0, text.len());
        return Checked {
            valid: asked.valid,
            chars,
        };
    }
    utf8::check(text)
}

// The refusals that need no reading, in the rules' order.
pub fn opened_by(text: &[u8], snippet: &[u8], asked: Asked) -> Result<Readable, Refusal>
    ensures { OpenedBy text.now snippet.now asked result }
{
    let request = asked.request;
    if asked.unfit {
        return Err(Refusal::Unfit);
    }
    early(text, asked.over, snippet, request)?;
    let checked = check_by(text, asked);
    late(text, checked, snippet, request)
}

// The same of a fresh text.
pub fn opened(text: &[u8], snippet: &[u8], request: Request) -> Result<Readable, Refusal>
    ensures { Opened text.now snippet.now request result }
{
    opened_by(text, snippet, fresh(request))
}

// A text that is read: its counts tell whether the lists have room.
fn counted(text: &[u8], readable: Readable, rooms: Rooms) -> Decision
    requires { Small text.now readable.frame × (readable.chars ≡ length (chars_from text.now 0)) }
    ensures { CountedBy text.now readable rooms result }
{
    let told = tally::tally(text, readable.chars, readable.frame, readable.mode);
    let counts = told.counts;
    match room_for(counts, rooms) {
        Ok(()) => Decision {
            answer: Answer {
                number: 0,
                place: 0,
                counts,
                arguments: told.arguments,
                moves: told.moves,
            },
            done: Some(readable),
        },
        Err(refusal) => Decision {
            answer: Answer {
                counts,
                ..Answer::from(refusal)
            },
            done: None,
        },
    }
}

// The answer to a call: a refusal before the text is read, or what its counts say.
pub fn decide_by(text: &[u8], snippet: &[u8], asked: Asked, rooms: Rooms) -> Decision
    ensures { DecidedBy text.now snippet.now asked rooms result }
{
    match opened_by(text, snippet, asked) {
        Ok(readable) => counted(text, readable, rooms),
        Err(refusal) => Decision {
            answer: Answer::from(refusal),
            done: None,
        },
    }
}

// The same of a fresh text.
pub fn decide(text: &[u8], snippet: &[u8], request: Request, rooms: Rooms) -> Decision
    ensures { Decided text.now snippet.now request rooms result }
{
    decide_by(text, snippet, fresh(request), rooms)
}
