// Pieces and error records as plain numbers, for callers in other languages: 40 numbers a piece, 16 an error record, written four at a time.
// specs/Layout.antt has the layout, and include/nitarehpu.h the same in C's words.
#![tactic(auto)]

ghost use Rattle.std.specs.Prelude.{◌≡◌, ◌+◌, ◌*◌, ◌≤◌, length};
ghost use Rattle.frame.specs.Places.{place, range_of};
ghost use Rattle.words.specs.Laid.{laid};
ghost use Rattle.words.specs.Layout.{low_of, four, bit_of, align_of, sign_of, hex_of, numeral_tag, numeral_of, place_tag, place_words, fill_words, span_words, count_data, name_span_end, count_words, range_words, argument_words, zeros, literal_words, error_words};
ghost use Rattle.reading.specs.Records.{bare_error};

use frame::{Span, TextRange};
use placeholder::{Align, Argument, Fill, Hex, Place, Sign};
use reading::ErrorRecord;
use scan::{Count, Numeral};

pub mod request; // request.rt: a request from the numbers of a call

// A number's low 32 bits. No place, span or argument number of a reading has more.
pub fn low(x: usize) -> u32
    ensures { result ≡ low_of x }
{
    (x % 0x100000000) as u32
}

pub fn put4(out: &mut [u32], at: usize, a: u32, b: u32, c: u32, d: u32)
    requires { at + 4 ≤ length out.old }
    ensures { out.new ≡ laid out.old at (four a b c d) }
{
    out[at] = a;
    out[at + 1] = b;
    out[at + 2] = c;
    out[at + 3] = d;
}

pub fn bit(b: bool) -> u32
    ensures { result ≡ bit_of b }
{
    u32::from(b)
}

// The enums' numbers by matches: they are those of the layout, and an `impl From` would stand in the enums' crate, which knows no layout.
pub fn align_word(align: Align) -> u32
    ensures { result ≡ align_of align }
{
    match align {
        Align::Unknown => 0,
        Align::Left => 1,
        Align::Right => 2,
        Align::Center => 3,
    }
}

pub fn sign_word(sign: Sign) -> u32
    ensures { result ≡ sign_of sign }
{
    match sign {
        Sign::Absent => 0,
        Sign::Plus => 1,
        Sign::Minus => 2,
    }
}

pub fn hex_word(hex: Hex) -> u32
    ensures { result ≡ hex_of hex }
{
    match hex {
        Hex::Absent => 0,
        Hex::Lower => 1,
        Hex::Upper => 2,
    }
}

// One tag for a number, another for one that is over range: no value stands for it.
fn numeral_tag(within: u32, over: u32, number: Numeral) -> u32
    ensures { result ≡ numeral_tag within over number }
{
    match number {
        Numeral::Within(_) => within,
        Numeral::Over => over,
    }
}

fn numeral_word(number: Numeral) -> u32
    ensures { result ≡ numeral_of number }
{
    match number {
        Numeral::Within(n) => n as u32,
        Numeral::Over => 0,
    }
}

fn place_tag(place: Place) -> u32
    ensures { result ≡ place_tag place }
{
    match place {
        Place::Next(_) => 0,
        Place::At(number) => numeral_tag(1, 3, number),
        Place::Named(_) => 2,
    }
}

fn put_place(out: &mut [u32], k: usize, place: Place, span: Span)
    requires { k + 4 ≤ length out.old }
    ensures { out.new ≡ laid out.old k (place_words place span) }
{
    let start = low(span.start.0);
    let end = low(span.end.0);
    match place {
        Place::Next(next) => put4(out, k, low(next), 0, start, end),
        Place::At(number) => put4(out, k, numeral_word(number), 0, start, end),
        Place::Named(name) => put4(out, k, low(name.start.0), low(name.end.0), start, end),
    }
}

fn put_fill(out: &mut [u32], k: usize, fill: Option<Fill>)
    requires { k + 4 ≤ length out.old }
    ensures { out.new ≡ laid out.old k (fill_words fill) }
{
    match fill {
        None => put4(out, k, 0, 0, 0, 0),
        Some(fill) => {
            let span = fill.span;
            put4(out, k, 1, fill.code, low(span.start.0), low(span.end.0))
        }
    }
}

// A number, and a span that may be absent.
pub fn put_span(out: &mut [u32], k: usize, first: u32, span: Option<Span>)
    requires { k + 4 ≤ length out.old }
    ensures { out.new ≡ laid out.old k (span_words first span) }
{
    match span {
        None => put4(out, k, first, 0, 0, 0),
        Some(span) => put4(out, k, first, 1, low(span.start.0), low(span.end.0)),
    }
}

// The kind of a count and its data, but for the end of a name's span.
fn put_count_data(out: &mut [u32], k: usize, count: Count)
    requires { k + 4 ≤ length out.old }
    ensures { out.new ≡ laid out.old k (count_data count) }
{
    match count {
        Count::Implied => put4(out, k, 0, 0, 0, 0),
        Count::Fixed(n) => put4(out, k, numeral_tag(1, 5, n), numeral_word(n), 0, 0),
        Count::ByArgument(n) => put4(out, k, numeral_tag(2, 6, n), numeral_word(n), 0, 0),
        Count::ByStar(n) => put4(out, k, 3, low(n), 0, 0),
        Count::ByName(name, span) => {
            put4(
                out,
                k,
                4,
                low(name.start.0),
                low(name.end.0),
                low(span.start.0),
            )
        }
    }
}

// The end of a name's span, and 0 for any other count.
fn name_span_end(count: Count) -> u32
    ensures { result ≡ name_span_end count }
{
    match count {
        Count::ByName(_, span) => low(span.end.0),
        Count::Implied | Count::Fixed(_) | Count::ByArgument(_) | Count::ByStar(_) => 0,
    }
}

fn put_count(out: &mut [u32], k: usize, count: Count, span: Option<Span>)
    requires { k + 8 ≤ length out.old }
    ensures { out.new ≡ laid out.old k (count_words count span) }
{
    put_count_data(&mut *out, k, count);
    put_span(out, k + 4, name_span_end(count), span);
}

// An argument as the n-th piece.
pub fn put_argument(out: &mut [u32], n: usize, argument: Argument)
    requires { 40 * n + 40 ≤ length out.old }
    ensures { out.new ≡ laid out.old (40 * n) (argument_words argument) }
{
    let k = 40 * n;
    let range = argument.range;
    let spec = argument.spec;
    let typetext = spec.typetext;
    put4(
        &mut *out,
        k,
        1,
        low(range.start.0),
        low(range.end.0),
        place_tag(argument.place),
    );
    put_place(&mut *out, k + 4, argument.place, argument.placespan);
    put_fill(&mut *out, k + 8, spec.fill);
    put4(
        &mut *out,
        k + 12,
        align_word(spec.align),
        sign_word(spec.sign),
        bit(spec.alternate),
        bit(spec.zero),
    );
    put_count(&mut *out, k + 16, spec.width, spec.widthspan);
    put_count(&mut *out, k + 24, spec.precision, spec.precisionspan);
    put4(
        &mut *out,
        k + 32,
        low(typetext.start.0),
        low(typetext.end.0),
        hex_word(spec.hex),
        0,
    );
    put_span(out, k + 36, 0, spec.typespan);
}

// Numbers that mean nothing in a record are 0.
pub fn put_zeros(out: &mut [u32], k: usize)
    requires { k + 24 ≤ length out.old }
    ensures { out.new ≡ laid out.old k zeros }
{
    put4(&mut *out, k, 0, 0, 0, 0);
    put4(&mut *out, k + 4, 0, 0, 0, 0);
    put4(&mut *out, k + 8, 0, 0, 0, 0);
    put4(&mut *out, k + 12, 0, 0, 0, 0);
    put4(&mut *out, k + 16, 0, 0, 0, 0);
    put4(out, k + 20, 0, 0, 0, 0);
}

// A literal as the n-th piece.
pub fn put_literal(out: &mut [u32], n: usize, start: usize, end: usize)
    requires { 40 * n + 40 ≤ length out.old }
    ensures { out.new ≡ laid out.old (40 * n) (literal_words (range_of (place start) (place end))) }
{
    let k = 40 * n;
    put4(&mut *out, k, 0, low(start), low(end), 0);
    put4(&mut *out, k + 4, 0, 0, 0, 0);
    put_zeros(&mut *out, k + 8);
    put4(&mut *out, k + 32, 0, 0, 0, 0);
    put4(out, k + 36, 0, 0, 0, 0);
}

fn put_range(out: &mut [u32], k: usize, range: Option<TextRange>)
    requires { k + 4 ≤ length out.old }
    ensures { out.new ≡ laid out.old k (range_words range) }
{
    match range {
        None => put4(out, k, 0, 0, 0, 0),
        Some(range) => put4(out, k, 0, 1, low(range.start.0), low(range.end.0)),
    }
}

// The n-th error record.
pub fn put_error(out: &mut [u32], n: usize, record: ErrorRecord)
    requires { 16 * n + 16 ≤ length out.old }
    ensures { out.new ≡ laid out.old (16 * n) (error_words «record») }
{
    let k = 16 * n;
    let span = record.span;
    put4(
        &mut *out,
        k,
        record.kind as u32,
        low(span.start.0),
        low(span.end.0),
        low(record.piece),
    );
    put_span(&mut *out, k + 4, 0, record.second);
    put_range(&mut *out, k + 8, record.quoted);
    put_span(out, k + 12, 0, record.suggestion);
}

// The n-th error record, where it has a kind, a span and the number of its piece alone.
pub fn put_bare_error(out: &mut [u32], n: usize, kind: u8, span: Span, piece: usize)
    requires { 16 * n + 16 ≤ length out.old }
    ensures { out.new ≡ laid out.old (16 * n) (error_words (bare_error kind span piece)) }
{
    let k = 16 * n;
    put4(
        &mut *out,
        k,
        kind as u32,
        low(span.start.0),
        low(span.end.0),
        low(piece),
    );
    put4(&mut *out, k + 4, 0, 0, 0, 0);
    put4(&mut *out, k + 8, 0, 0, 0, 0);
    put4(out, k + 12, 0, 0, 0, 0);
}
