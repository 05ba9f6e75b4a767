// The full and the short listing of a call: each record a line, in which std's Display writes the parts. Every function writes behind what its writer holds; a program hands
// over a writer with a buffer.
#![tactic(auto)]

ghost use Rattle.std.specs.Prelude.{[], ◌∷◌, ◌++◌, ◌≡◌, Some, codes, decimal};
ghost use Rattle.listing.specs.Parts.{span_ends, range_ends, ends_listed, range_listed, numeral_listed, place_listed, count_listed, fill_listed, spec_listed, output_or_dash};
ghost use Rattle.listing.specs.Lines.{argument_line, piece_line, error_line};
ghost use Rattle.listing.specs.Shapes.{Wrote, shaped};

use frame::{Span, TextRange};
use placeholder::{Argument, Fill, Place, Spec};
use reading::{ErrorRecord, Piece};
use scan::{Count, Numeral};
use std::fmt::{Display, Formatter};
use std::io::Write;
use std::{fmt, io};

// A part of a record as a listing has it.
#[derive(Clone, Copy)]
struct Listed<T>(T);

// A part that may be absent, for which `-` stands.
#[derive(Clone, Copy)]
struct OrDash<T>(Option<T>);

impl<T: Display> Display for OrDash<T> {
    ghost output = { λ part. output_or_dash T.output part.0 };

    fn fmt<W: fmt::Write>(&self, f: &mut Formatter<W>) -> fmt::Result {
        match &self.0 {
            None => write!(f, "-"),
            Some(part) => part.fmt(f),
        }
    }
}

// Where something starts and ends: `S..E`.
#[derive(Clone, Copy)]
struct Ends {
    start: usize,
    end: usize,
}

impl From<Span> for Ends {
    ghost from_gives = { λ span ends. ends ≡ span_ends span };

    fn from(span: Span) -> Ends {
        Ends {
            start: span.start.0,
            end: span.end.0,
        }
    }
}

impl From<TextRange> for Ends {
    ghost from_gives = { λ range ends. ends ≡ range_ends range };

    fn from(range: TextRange) -> Ends {
        Ends {
            start: range.start.0,
            end: range.end.0,
        }
    }
}

impl Display for Ends {
    ghost output = { λ ends. Some (ends_listed ends) };

    fn fmt<W: fmt::Write>(&self, f: &mut Formatter<W>) -> fmt::Result {
        write!(f, "{}..{}", self.start, self.end)
    }
}

// A part of the text: the places of its first byte and of the byte past its last.
impl Display for Listed<TextRange> {
    ghost output = { λ listed. Some (range_listed listed.0) };

    fn fmt<W: fmt::Write>(&self, f: &mut Formatter<W>) -> fmt::Result {
        write!(f, "{} {}", self.0.start.0, self.0.end.0)
    }
}

impl Display for Listed<Numeral> {
    ghost output = { λ listed. Some (numeral_listed listed.0) };

    fn fmt<W: fmt::Write>(&self, f: &mut Formatter<W>) -> fmt::Result {
        match self.0 {
            Numeral::Within(number) => write!(f, "{number}"),
            Numeral::Over => write!(f, "over"),
        }
    }
}

impl Display for Listed<Place> {
    ghost output = { λ listed. Some (place_listed listed.0) };

    fn fmt<W: fmt::Write>(&self, f: &mut Formatter<W>) -> fmt::Result {
        match self.0 {
            Place::Next(argument) => write!(f, "next {argument}"),
            Place::At(Numeral::Within(argument)) => write!(f, "at {argument}"),
            Place::At(Numeral::Over) => write!(f, "over"),
            Place::Named(name) => write!(f, "name {}", Listed(name)),
        }
    }
}

impl Display for Listed<Count> {
    ghost output = { λ listed. Some (count_listed listed.0) };

    fn fmt<W: fmt::Write>(&self, f: &mut Formatter<W>) -> fmt::Result {
        match self.0 {
            Count::Implied => write!(f, "implied"),
            Count::Fixed(number) => write!(f, "fixed {}", Listed(number)),
            Count::ByName(name, span) => write!(f, "name {} {}", Listed(name), Ends::from(span)),
            Count::ByArgument(number) => write!(f, "arg {}", Listed(number)),
            Count::ByStar(argument) => write!(f, "star {argument}"),
        }
    }
}

impl Display for Listed<Fill> {
    ghost output = { λ listed. Some (fill_listed listed.0) };

    fn fmt<W: fmt::Write>(&self, f: &mut Formatter<W>) -> fmt::Result {
        write!(f, "{} {}", self.0.code, Ends::from(self.0.span))
    }
}

// A spec: its marks as numbers, 0 where one is absent, then its counts and its type.
impl Display for Listed<Spec> {
    ghost output = { λ listed. Some (spec_listed listed.0) };

    fn fmt<W: fmt::Write>(&self, f: &mut Formatter<W>) -> fmt::Result {
        let spec = self.0;
        let (align, sign, hex) = (spec.align as u8, spec.sign as u8, spec.hex as u8);
        let (alternate, zero) = (spec.alternate as u8, spec.zero as u8);
        write!(
            f,
            "fill {} align {align} sign {sign}",
            OrDash(spec.fill.map(Listed))
        )?;
        write!(f, " alt {alternate} zero {zero} hex {hex}")?;
        write!(
            f,
            " width {} {}",
            Listed(spec.width),
            OrDash(spec.widthspan.map(Ends::from))
        )?;
        write!(
            f,
            " precision {} {}",
            Listed(spec.precision),
            OrDash(spec.precisionspan.map(Ends::from))
        )?;
        write!(
            f,
            " type {} {}",
            Listed(spec.typetext),
            OrDash(spec.typespan.map(Ends::from))
        )
    }
}

fn literal<W: Write>(out: &mut W, r: TextRange) -> io::Result<()>
    ensures { Wrote result (W.contents out.old) (W.contents out.new) (shaped (codes "lit # #\n") r.start.0 r.end.0) }
{
    writeln!(out, "lit {} {}", r.start.0, r.end.0)
}

// An argument's line: its bytes and its place, and in full where the place stands, and its spec.
fn argument<W: Write>(out: &mut W, full: bool, a: Argument) -> io::Result<()>
    ensures { Wrote result (W.contents out.old) (W.contents out.new) (argument_line full a) }
{
    write!(out, "arg {} {}", Listed(a.range), Listed(a.place))?;
    if full {
        write!(out, " span {} {}", Ends::from(a.placespan), Listed(a.spec))?;
    }
    writeln!(out)
}

// A piece's line.
pub fn piece<W: Write>(out: &mut W, full: bool, p: Piece) -> io::Result<()>
    ensures { Wrote result (W.contents out.old) (W.contents out.new) (piece_line full p) }
{
    match p {
        Piece::Literal(r) => literal(out, r),
        Piece::Placeholder(a) => argument(out, full, a),
    }
}

// An error record's line.
pub fn error<W: Write>(out: &mut W, e: ErrorRecord) -> io::Result<()>
    ensures { Wrote result (W.contents out.old) (W.contents out.new) (error_line e) }
{
    writeln!(
        out,
        "err {} {} second {} quoted {} suggestion {} piece {}",
        e.kind,
        Ends::from(e.span),
        OrDash(e.second.map(Ends::from)),
        OrDash(e.quoted.map(Ends::from)),
        OrDash(e.suggestion.map(Ends::from)),
        e.piece
    )
}

// A line of an argument place or a line span: its label, start and end.
pub fn pair_line<W: Write>(out: &mut W, label: &[u8], start: usize, end: usize) -> io::Result<()>
    ensures { Wrote result (W.contents out.old) (W.contents out.new) (label.now ++ shaped (codes " #..#\n") start end) }
{
    out.write_all(label)?;
    writeln!(out, " {start}..{end}")
}

// An error record's line in the short listing: its kind, its span, and how many pieces were listed before it.
pub fn short_error<W: Write>(out: &mut W, e: ErrorRecord) -> io::Result<()>
    ensures { Wrote result (W.contents out.old) (W.contents out.new) (shaped (codes "# # ") e.kind e.span.start.0 ++ shaped (codes "# #\n") e.span.end.0 e.piece) }
{
    writeln!(
        out,
        "{} {} {} {}",
        e.kind, e.span.start.0, e.span.end.0, e.piece
    )
}

// A span's line in the short listing.
pub fn short_pair<W: Write>(out: &mut W, start: usize, end: usize) -> io::Result<()>
    ensures { Wrote result (W.contents out.old) (W.contents out.new) (shaped (codes "# #\n") start end) }
{
    writeln!(out, "{start} {end}")
}

// A word, a number and the line's end.
pub fn heading<W: Write>(out: &mut W, label: &[u8], value: usize) -> io::Result<()>
    ensures { Wrote result (W.contents out.old) (W.contents out.new) (label.now ++ (decimal value ++ 10 ∷ [])) }
{
    out.write_all(label)?;
    writeln!(out, "{value}")
}
