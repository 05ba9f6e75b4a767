// The lines of each list. In full every field of a record stands in its line; in short each list stands after its count.
ghost use Rattle.std.specs.Prelude.{◌++◌, codes};
ghost use Rattle.listing.specs.Shapes.{Wrote, shaped};

use crate::lists::Lists;
use reading::{Answer, Counts, ErrorRecord, Piece};
use std::io;
use std::io::Write;

// `answer`, the number, the place, the four counts, the arguments and the moves.
pub fn answer_line<W: Write>(out: &mut W, answer: Answer) -> io::Result<()>
    ensures { Wrote result (W.contents out.old) (W.contents out.new) (shaped (codes "answer # #") answer.number answer.place ++ (shaped (codes " # #") answer.counts.pieces answer.counts.errors ++ (shaped (codes " # #") answer.counts.places answer.counts.lines ++ shaped (codes " arguments # moves #\n") answer.arguments answer.moves))) }
{
    write!(out, "answer {} {}", answer.number, answer.place)?;
    four_counts(out, answer.counts)?;
    writeln!(
        out,
        " arguments {} moves {}",
        answer.arguments, answer.moves
    )
}

// The counts of the four lists.
fn four_counts<W: Write>(out: &mut W, counts: Counts) -> io::Result<()>
    ensures { Wrote result (W.contents out.old) (W.contents out.new) (shaped (codes " # #") counts.pieces counts.errors ++ shaped (codes " # #") counts.places counts.lines) }
{
    let (pieces, errors) = (counts.pieces, counts.errors);
    let (places, lines) = (counts.places, counts.lines);
    write!(out, " {pieces} {errors} {places} {lines}")
}

// A refusal in short: `answer`, its number and its place.
pub fn refusal<W: Write>(out: &mut W, answer: Answer) -> io::Result<()>
    ensures { Wrote result (W.contents out.old) (W.contents out.new) (shaped (codes "answer # #\n") answer.number answer.place) }
{
    writeln!(out, "answer {} {}", answer.number, answer.place)
}

// The first line: in short the number alone.
fn head<W: Write>(out: &mut W, full: bool, answer: Answer) -> io::Result<()> {
    if full {
        return answer_line(out, answer);
    }
    writeln!(out, "answer {}", answer.number)
}

// In short, a list's heading, by the word for its records.
fn section<W: Write>(out: &mut W, full: bool, word: &str, count: usize) -> io::Result<()> {
    if full {
        return Ok(());
    }
    writeln!(out, "{word}s {count}")
}

// An error record's line.
fn error_line<W: Write>(out: &mut W, full: bool, error: ErrorRecord) -> io::Result<()> {
    if full {
        return listing::error(out, error);
    }
    listing::short_error(out, error)
}

// A span's line.
fn span_line<W: Write>(
    out: &mut W,
    full: bool,
    word: &str,
    start: usize,
    end: usize,
) -> io::Result<()> {
    if full {
        return listing::pair_line(out, word.as_bytes(), start, end);
    }
    listing::short_pair(out, start, end)
}

// The pieces: the first records of their list.
fn piece_lines<W: Write>(out: &mut W, full: bool, list: &[Piece], count: usize) -> io::Result<()> {
    section(out, full, "piece", count)?;
    for piece in list.iter().take(count) {
        listing::piece(out, full, *piece)?;
    }
    Ok(())
}

// The errors: the first records of their list.
fn error_lines<W: Write>(
    out: &mut W,
    full: bool,
    list: &[ErrorRecord],
    count: usize,
) -> io::Result<()> {
    section(out, full, "error", count)?;
    for error in list.iter().take(count) {
        error_line(out, full, *error)?;
    }
    Ok(())
}

// Argument places or line spans: the first pairs of numbers of their list.
fn span_lines<W: Write>(
    out: &mut W,
    full: bool,
    word: &str,
    list: &[usize],
    count: usize,
) -> io::Result<()> {
    section(out, full, word, count)?;
    for span in list.chunks_exact(2).take(count) {
        span_line(out, full, word, span[0], span[1])?;
    }
    Ok(())
}

// The answer, and then the four lists.
pub fn sections<W: Write>(
    out: &mut W,
    full: bool,
    answer: Answer,
    lists: &Lists,
) -> io::Result<()> {
    head(out, full, answer)?;
    piece_lines(out, full, &lists.pieces, answer.counts.pieces)?;
    error_lines(out, full, &lists.errors, answer.counts.errors)?;
    span_lines(out, full, "place", &lists.places, answer.counts.places)?;
    span_lines(out, full, "line", &lists.lines, answer.counts.lines)
}
