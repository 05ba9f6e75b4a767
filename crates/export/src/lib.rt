// The public call for programs in other languages, on numbers and lent lists of numbers. include/nitarehpu.h says the same in C's words.
#![tactic(auto)]

ghost use Rattle.std.specs.Prelude.{◌≡◌, true, ◌≤◌, length};
ghost use Rattle.frame.specs.Bounds.{Small};
ghost use Rattle.utf8.specs.Chars.{chars_from};
ghost use Rattle.reading.specs.Written.{over};
ghost use Rattle.words.specs.Calls.{Exported, Counted, request_of, rooms_in, answer_words};
ghost use Rattle.export.specs.Parts.{Roomy, Ample, Filled, ReadBy, Read, Enough, Bare, ReadBare};

use answer::decide::{decide, fresh, opened_by, room_for};
use answer::{Asked, Refusal};
use frame::{Frame, Mode, SnippetPlace};
use reading::{Answer, Counts, Rooms};
use spans::{fill_lines, fill_places};
use tally::moves_told;
use words::request::request_of;

// The eight numbers of an answer, over the first of a list.
pub fn put_answer(out: &mut [usize], answer: Answer)
    requires { 8 ≤ length out.old }
    ensures { out.new ≡ over (answer_words answer) out.old }
{
    let counts = answer.counts;
    out[0] = answer.number as usize;
    out[1] = answer.place;
    out[2] = counts.pieces;
    out[3] = counts.errors;
    out[4] = counts.places;
    out[5] = counts.lines;
    out[6] = answer.arguments;
    out[7] = answer.moves;
}

// Whether both lists have room for whatever a text of so many bytes holds: a record a byte is enough. Only source literals need the other lists.
fn is_roomy(size: usize, frame: Frame, rooms: Rooms) -> bool
    ensures { result ≡ true → Roomy size frame rooms }
{
    if frame.literal {
        return false;
    }
    if rooms.pieces < size {
        return false;
    }
    size <= rooms.errors
}

// A text whose lists are roomy is read without being counted first.
fn filled(
    text: &[u8],
    chars: usize,
    frame: Frame,
    mode: Mode,
    pieces: &mut [u32],
    errors: &mut [u32],
) -> Answer
    requires { Ample text.now frame pieces.old errors.old × (chars ≡ length (chars_from text.now 0)) }
    ensures { Filled text.now frame mode pieces.old pieces.new errors.old errors.new result }
{
    let got = fills::run::fill(text, frame, mode, pieces, errors);
    let counts = Counts {
        pieces: got.pieces,
        errors: got.errors,
        places: 0,
        lines: 0,
    };
    Answer {
        number: 0,
        place: 0,
        counts,
        arguments: got.arguments,
        moves: moves_told(text, chars, got.stop, got.given),
    }
}

// A text that is counted first: its lists are filled where each has room.
fn counted(
    text: &[u8],
    chars: usize,
    frame: Frame,
    mode: Mode,
    rooms: Rooms,
    pieces: &mut [u32],
    errors: &mut [u32],
    places: &mut [usize],
    lines: &mut [usize],
) -> Answer
    requires { Small text.now frame × (chars ≡ length (chars_from text.now 0)) × (rooms ≡ rooms_in pieces.old errors.old places.old lines.old) }
    ensures { ReadBy text.now frame mode pieces.old pieces.new errors.old errors.new places.old places.new lines.old lines.new result }
{
    let told = tally::tally(text, chars, frame, mode);
    let counts = told.counts;
    match room_for(counts, rooms) {
        Ok(()) => {
            fills::run::fill(text, frame, mode, pieces, errors);
            fill_places(text, frame, mode, places);
            fill_lines(text, frame, mode, lines);
            Answer {
                number: 0,
                place: 0,
                counts,
                arguments: told.arguments,
                moves: told.moves,
            }
        }
        Err(refusal) => Answer {
            counts,
            ..Answer::from(refusal)
        },
    }
}

// The answer to a call on a text of which something may be known, and its lists filled where it is done.
pub fn read_by(
    text: &[u8],
    snippet: &[u8],
    asked: Asked,
    pieces: &mut [u32],
    errors: &mut [u32],
    places: &mut [usize],
    lines: &mut [usize],
) -> Answer
    ensures { Read text.now snippet.now asked pieces.old pieces.new errors.old errors.new places.old places.new lines.old lines.new result }
{
    let rooms = Rooms {
        pieces: pieces.len() / 40,
        errors: errors.len() / 16,
        places: places.len() / 2,
        lines: lines.len() / 2,
    };
    match opened_by(text, snippet, asked) {
        Err(refusal) => Answer::from(refusal),
        Ok(readable) => {
            let frame = readable.frame;
            let mode = readable.mode;
            if is_roomy(text.len(), frame, rooms) {
                return filled(text, readable.chars, frame, mode, pieces, errors);
            }
            counted(
                text,
                readable.chars,
                frame,
                mode,
                rooms,
                pieces,
                errors,
                places,
                lines,
            )
        }
    }
}

// Whether lists of so many numbers have a record for each byte of a text of so many bytes, which is within the limit.
fn is_ample(size: usize, pieces: usize, errors: usize) -> bool
    ensures { result ≡ true → Enough size pieces errors }
{
    if 65535 < size {
        return false;
    }
    if pieces < 40 * size {
        return false;
    }
    16 * size <= errors
}

// Whether a call has ample lists and asks for nothing beside its text. Most are such, so they are told by their numbers, before a request is made.
fn is_bare(ample: bool, mode: u8, style: u8, given: u8, newline: u8) -> bool
    ensures { result ≡ true → Bare ample mode style given newline }
{
    if mode != 0 {
        return false;
    }
    if style != 0 {
        return false;
    }
    if given != 0 {
        return false;
    }
    if newline != 0 {
        return false;
    }
    ample
}

// The answer to such a call. No refusal but 4 is left, and the frame is known, so no request and no decision goes through memory: some 120 instructions
// less a call.
fn read_bare(text: &[u8], pieces: &mut [u32], errors: &mut [u32]) -> Answer
    requires { Enough (length text.now) (length pieces.old) (length errors.old) }
    ensures { ReadBare text.now pieces.old pieces.new errors.old errors.new result }
{
    let checked = utf8::check_in_place(text);
    let valid = checked.valid;
    if valid < text.len() {
        return Answer::from(Refusal::NotUtf8 { valid });
    }
    let frame = Frame {
        quote: 1,
        end: SnippetPlace(text.len()),
        literal: false,
    };
    filled(text, checked.chars, frame, Mode::Format, pieces, errors)
}

// Reads a text into four lists of numbers: 40 a piece, 16 an error record, 2 a span. The answer's eight numbers go to a list of their own; without
// room for them the call is refused with 255. A refusal changes no list.
#[unsafe(no_mangle)]
pub extern "C" fn nitarehpu_read(
    text: &[u8],
    snippet: &[u8],
    mode: u8,
    style: u8,
    hashes: usize,
    given: u8,
    newline: u8,
    pieces: &mut [u32],
    errors: &mut [u32],
    places: &mut [usize],
    lines: &mut [usize],
    answer: &mut [usize],
) -> u8
    ensures { Exported text.now snippet.now (request_of mode style hashes given newline) pieces.old pieces.new errors.old errors.new places.old places.new lines.old lines.new answer.old answer.new result }
{
    if answer.len() < 8 {
        return 255;
    }
    let ample = is_ample(text.len(), pieces.len(), errors.len());
    if is_bare(ample, mode, style, given, newline) {
        let got = read_bare(text, pieces, errors);
        put_answer(answer, got);
        return got.number;
    }
    let request = request_of(mode, style, hashes, given, newline);
    let asked = fresh(request);
    let got = read_by(text, snippet, asked, pieces, errors, places, lines);
    put_answer(answer, got);
    got.number
}

// How many records each list of a reading needs, how many arguments its pieces want and how many characters it passes, with the same refusals 1 to 5 and 255.
#[unsafe(no_mangle)]
pub extern "C" fn nitarehpu_count(
    text: &[u8],
    snippet: &[u8],
    mode: u8,
    style: u8,
    hashes: usize,
    given: u8,
    newline: u8,
    answer: &mut [usize],
) -> u8
    ensures { Counted text.now snippet.now (request_of mode style hashes given newline) answer.old answer.new result }
{
    if answer.len() < 8 {
        return 255;
    }
    let request = request_of(mode, style, hashes, given, newline);
    let rooms = Rooms {
        pieces: 0xFFFFFFFF,
        errors: 0xFFFFFFFF,
        places: 0xFFFFFFFF,
        lines: 0xFFFFFFFF,
    };
    let decision = decide(text, snippet, request, rooms);
    let got = decision.answer;
    put_answer(answer, got);
    got.number
}
