// One Format text, no style and no snippet, from standard input to the verdict on it: `yes`, `rule R piece P`, or `answer N P` where it is refused.
// Standard error has the same in words.
#![tactic(auto)]

ghost use Rattle.frame.specs.Bounds.{Small};

use frame::{Frame, Mode, TextRange};
use membership::Verdict;
use reading::{Piece, Request};
use std::io;
use std::io::Write;

// The bytes of a piece.
fn range_of(piece: Piece) -> TextRange {
    match piece {
        Piece::Literal(view) => view,
        Piece::Placeholder(argument) => argument.range,
    }
}

// The piece that is counted k, from 0; past the last there is none.
fn piece_at(text: &[u8], frame: Frame, k: usize) -> Option<Piece>
    requires { Small text.now frame }
{
    let mut cursor = turns::first_cursor(text);
    for _ in 0..k {
        cursor = turns::next_piece(text, frame, Mode::Format, cursor)?.cursor;
    }
    Some(turns::next_piece(text, frame, Mode::Format, cursor)?.piece)
}

// Which piece, and how it is written.
fn say_piece<E: Write>(err: &mut E, text: &[u8], k: usize, range: TextRange) -> io::Result<()> {
    write!(err, ", piece {k} `")?;
    err.write_all(steps::text::literal_text(text, range))?;
    write!(err, "`")
}

// A rule in words: it is broken at a piece, or by the lack of one.
fn rule_in_words(rule: u8, there: bool) -> &'static str {
    match rule {
        1 => "rule 1: the text has an error",
        2 => "rule 2: a place is no name",
        3 => "rule 3: a width or precision is taken from an argument, a star or a name",
        4 if there => "rule 4: a second place is called number",
        4 => "rule 4: no place is called number",
        _ => "rule 5: the date stands before the number",
    }
}

// The rule in words, and the piece where there is one.
fn explain<E: Write>(
    err: &mut E,
    text: &[u8],
    request: Request,
    rule: u8,
    k: usize,
) -> io::Result<()> {
    let Ok(readable) = answer::decide::opened(text, b"", request) else {
        return Ok(());
    };
    let piece = piece_at(text, readable.frame, k);
    let words = rule_in_words(rule, piece.is_some());
    write!(err, "{words}")?;
    if let Some(piece) = piece
        && rule != 1
    {
        say_piece(err, text, k, range_of(piece))?;
    }
    writeln!(err)
}

// A refusal in words: with no style and Format it is 3 or 4.
fn refusal_in_words(number: u8) -> &'static str {
    match number {
        3 => "the text has more than 65,535 bytes",
        _ => "the text is not UTF-8",
    }
}

// The verdict on a text.
fn tell<W: Write, E: Write>(out: &mut W, err: &mut E, text: &[u8]) -> io::Result<()> {
    let request = Request {
        mode: 0,
        style: None,
        given: false,
        newline: false,
    };
    match member::judge(text, b"", request) {
        Verdict::Yes => {
            writeln!(out, "yes")?;
            writeln!(err, "a member template")
        }
        Verdict::Broken(rule, piece) => {
            writeln!(out, "rule {rule} piece {piece}")?;
            explain(err, text, request, rule, piece)
        }
        Verdict::Refused(number, place) => {
            let words = refusal_in_words(number);
            writeln!(out, "answer {number} {place}")?;
            writeln!(err, "refused: {words}")
        }
    }
}

fn main(rt: HostRuntime) -> io::Result<()> {
    // One byte more than the longest text that is read: a longer input is read far enough to be refused as 3.
    let mut text = [0u8; 65536];
    let length = intake::read_full(&mut rt.stdin(), &mut text)?;
    tell(&mut rt.stdout(), &mut rt.stderr(), &text[..length])
}
