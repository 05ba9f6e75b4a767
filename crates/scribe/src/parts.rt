// The parts of a placeholder in their plain form. Every function lays its part at a place of the buffer and gives the place past it.
ghost use Rattle.std.specs.Prelude.{◌≡◌, ◌+◌, ◌<◌, List, ℕ};
ghost use Rattle.pen.specs.Pens.{Fits, Laid, text_of};
ghost use Rattle.plain.specs.Said.{said_place, said_fill, said_count, said_spec, said_piece};
ghost use Rattle.plain.specs.Plain.{plain_number, plain_place, plain_fill, plain_align, plain_sign, plain_flag, plain_count, after, plain_hex, plain_spec, is_brace, doubled, plain_piece};
ghost use Rattle.scribe.specs.Scribes.{Inked, InkedPiece, plain_mark, marks_of, counts_of, starts_with_brace, argument_of};

use frame::TextRange;
use pen::{put_byte, put_char, put_number, put_range};
use placeholder::{Align, Argument, Fill, Hex, Place, Sign, Spec};
use reading::Piece;
use scan::{Count, Numeral};

// A number in digits: one over range writes nothing.
fn put_numeral(out: &mut [u8], at: usize, number: Numeral) -> usize
    requires { Fits at (plain_number number) }
    ensures { Laid out.old at (plain_number number) result out.new }
{
    match number {
        Numeral::Over => at,
        Numeral::Within(n) => put_number(out, at, n),
    }
}

// A place: an implicit one writes nothing.
pub fn put_place(out: &mut [u8], at: usize, text: &[u8], place: Place) -> usize
    requires { Fits at (plain_place (said_place text.now place)) }
    ensures { Laid out.old at (plain_place (said_place text.now place)) result out.new }
{
    match place {
        Place::Next(_) => at,
        Place::At(number) => put_numeral(out, at, number),
        Place::Named(name) => put_range(out, at, text, name),
    }
}

// A fill, whatever character it is.
fn put_fill(out: &mut [u8], at: usize, text: &[u8], fill: Option<Fill>) -> usize
    requires { Fits at (plain_fill (said_fill text.now fill)) × Inked fill }
    ensures { Laid out.old at (plain_fill (said_fill text.now fill)) result out.new }
{
    match fill {
        None => at,
        Some(fill) => put_char(out, at, fill.code),
    }
}

// A mark of one byte, where there is one.
fn put_mark(out: &mut [u8], at: usize, mark: Option<u8>) -> usize
    requires { Fits at (plain_mark mark) }
    ensures { Laid out.old at (plain_mark mark) result out.new }
{
    match mark {
        None => at,
        Some(byte) => put_byte(out, at, byte),
    }
}

fn align_mark(align: Align) -> Option<u8>
    ensures { plain_mark result ≡ plain_align align }
{
    match align {
        Align::Unknown => None,
        Align::Left => Some(b'<'),
        Align::Right => Some(b'>'),
        Align::Center => Some(b'^'),
    }
}

fn sign_mark(sign: Sign) -> Option<u8>
    ensures { plain_mark result ≡ plain_sign sign }
{
    match sign {
        Sign::Absent => None,
        Sign::Plus => Some(b'+'),
        Sign::Minus => Some(b'-'),
    }
}

// `#` or `0`, where it stands.
fn flag_mark(flag: u8, stands: bool) -> Option<u8>
    ensures { plain_mark result ≡ plain_flag flag stands }
{
    if stands { Some(flag) } else { None }
}

// The letter of `x?` and `X?`.
fn hex_mark(hex: Hex) -> Option<u8>
    ensures { plain_mark result ≡ plain_hex hex }
{
    match hex {
        Hex::Absent => None,
        Hex::Lower => Some(b'x'),
        Hex::Upper => Some(b'X'),
    }
}

// A width, or a precision without its dot.
fn put_count(out: &mut [u8], at: usize, text: &[u8], count: Count) -> usize
    requires { Fits at (plain_count (said_count text.now count)) }
    ensures { Laid out.old at (plain_count (said_count text.now count)) result out.new }
{
    match count {
        Count::Implied => at,
        Count::Fixed(number) => put_numeral(out, at, number),
        Count::ByName(name, _) => {
            let k = put_range(&mut *out, at, text, name);
            put_byte(out, k, b'$')
        }
        Count::ByArgument(number) => {
            let k = put_numeral(&mut *out, at, number);
            put_byte(out, k, b'$')
        }
        Count::ByStar(_) => put_byte(out, at, b'*'),
    }
}

// The mark at a place before what is laid behind it up to another, once that is seen to be something; where it is nothing, no mark stands.
fn put_before(out: &mut [u8], at: usize, mark: u8, past: usize) -> usize
    requires { at < 0xFFFFFFFF }
    ensures { (old xs : List ℕ) → Laid old (at + 1) xs past out.old → Laid old at (after mark xs) result out.new }
{
    if past == at + 1 {
        return at;
    }
    put_byte(out, at, mark);
    past
}

// A precision behind its dot.
fn put_precision(out: &mut [u8], at: usize, text: &[u8], count: Count) -> usize
    requires { Fits (at + 1) (plain_count (said_count text.now count)) }
    ensures { Laid out.old at (after 0x2E (plain_count (said_count text.now count))) result out.new }
{
    let k = put_count(&mut *out, at + 1, text, count);
    put_before(out, at, b'.', k)
}

// What stands before the width: fill, align, sign, `#` and `0`.
fn put_marks(out: &mut [u8], at: usize, text: &[u8], spec: Spec) -> usize
    requires { Fits at (marks_of (said_spec text.now spec)) × Inked spec.fill }
    ensures { Laid out.old at (marks_of (said_spec text.now spec)) result out.new }
{
    let k = put_fill(&mut *out, at, text, spec.fill);
    let k = put_mark(&mut *out, k, align_mark(spec.align));
    let k = put_mark(&mut *out, k, sign_mark(spec.sign));
    let k = put_mark(&mut *out, k, flag_mark(b'#', spec.alternate));
    put_mark(out, k, flag_mark(b'0', spec.zero))
}

// The width, the precision and the type.
fn put_counts(out: &mut [u8], at: usize, text: &[u8], spec: Spec) -> usize
    requires { Fits (at + 1) (counts_of (said_spec text.now spec)) }
    ensures { Laid out.old at (counts_of (said_spec text.now spec)) result out.new }
{
    let k = put_count(&mut *out, at, text, spec.width);
    let k = put_precision(&mut *out, k, text, spec.precision);
    let k = put_mark(&mut *out, k, hex_mark(spec.hex));
    put_range(out, k, text, spec.typetext)
}

// A spec behind its colon.
pub fn put_spec(out: &mut [u8], at: usize, text: &[u8], spec: Spec) -> usize
    requires { Fits (at + 2) (plain_spec (said_spec text.now spec)) × Inked spec.fill }
    ensures { Laid out.old at (after 0x3A (plain_spec (said_spec text.now spec))) result out.new }
{
    let k = put_marks(&mut *out, at + 1, text, spec);
    let k = put_counts(&mut *out, k, text, spec);
    put_before(out, at, b':', k)
}

#[tactic(auto, unfolding(utf8::specs::Choice::either))]
fn is_brace(byte: u8) -> bool
    ensures { result ≡ is_brace byte }
{
    byte == b'{' || byte == b'}'
}

// Whether a part of the text starts with a brace.
fn starts_with_brace(text: &[u8], range: TextRange) -> bool
    ensures { result ≡ starts_with_brace (text_of text.now range) }
{
    let i = range.start.0;
    i < range.end.0 && i < text.len() && is_brace(text[i])
}

// A literal, whose first brace is written twice.
pub fn put_literal(out: &mut [u8], at: usize, text: &[u8], view: TextRange) -> usize
    requires { Fits at (doubled (text_of text.now view)) }
    ensures { Laid out.old at (doubled (text_of text.now view)) result out.new }
{
    if !starts_with_brace(text, view) {
        return put_range(out, at, text, view);
    }
    let i = view.start.0;
    let k = put_byte(&mut *out, at, text[i]);
    put_range(out, k, text, view)
}

// A placeholder: its place, its spec behind a colon, and both braces.
fn put_argument(out: &mut [u8], at: usize, text: &[u8], argument: Argument) -> usize
    requires { Fits (at + 1) (argument_of text.now argument) × Inked argument.spec.fill }
    ensures { Laid out.old at (argument_of text.now argument) result out.new }
{
    let k = put_byte(&mut *out, at, b'{');
    let k = put_place(&mut *out, k, text, argument.place);
    let k = put_spec(&mut *out, k, text, argument.spec);
    put_byte(out, k, b'}')
}

// A piece.
pub fn put_piece(out: &mut [u8], at: usize, text: &[u8], piece: Piece) -> usize
    requires { Fits (at + 1) (plain_piece (said_piece text.now piece)) × InkedPiece piece }
    ensures { Laid out.old at (plain_piece (said_piece text.now piece)) result out.new }
{
    match piece {
        Piece::Literal(view) => put_literal(out, at, text, view),
        Piece::Placeholder(argument) => put_argument(out, at, text, argument),
    }
}
