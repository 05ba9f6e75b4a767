// The Format spec after its colon, a part at a time: fill and align; sign; `#`; `0`; width; `.` with precision; type.
ghost use Rattle.std.specs.Prelude.{◌≡◌, ◌<◌};
ghost use Rattle.frame.specs.Bounds.{Small};
ghost use Rattle.placeholder.specs.Parts.{is_align, fill_read, align_read, sign_read, is_implied, plain_width, width_read, after_dot, precision_read};
ghost use Rattle.placeholder.specs.Types.{sign_type, hex_type, is_hex_or_hash, debug_type, word_type, type_read};
ghost use Rattle.placeholder.specs.Format.{format_read};

use crate::{Align, Fill, Hex, Sign, Spec};
use frame::{Frame, Span, TextPlace, TextRange};
use scan::{Count, Flaw, Numeral};

#[derive(Clone, Copy)]
pub struct FillRead {
    pub fill: Option<Fill>,
    pub at: TextPlace,
}

#[derive(Clone, Copy)]
pub struct AlignRead {
    pub align: Align,
    pub at: TextPlace,
}

#[derive(Clone, Copy)]
pub struct SignRead {
    pub sign: Sign,
    pub at: TextPlace,
}

#[derive(Clone, Copy)]
pub struct WidthRead {
    pub zero: bool,
    pub width: Count,
    pub span: Option<Span>,
    pub at: TextPlace,
    pub flaw: Flaw,
    pub given: usize,
}

#[derive(Clone, Copy)]
pub struct PrecisionRead {
    pub precision: Count,
    pub span: Option<Span>,
    pub at: TextPlace,
    pub next: usize,
    pub flaw: Flaw,
    pub given: usize,
}

#[derive(Clone, Copy)]
pub struct TypeRead {
    pub hex: Hex,
    pub typetext: TextRange,
    pub span: Option<Span>,
    pub at: TextPlace,
    pub flaw: Flaw,
}

// A spec, where reading stands after it, the next argument's number, what its parts found wrong, and how many characters its counts gave back.
#[derive(Clone, Copy)]
pub struct SpecRead {
    pub spec: Spec,
    pub at: TextPlace,
    pub next: usize,
    pub width: Flaw,
    pub precision: Flaw,
    pub typetext: Flaw,
    pub given: usize,
}

// Whether an align stands at a place.
pub fn is_align(text: &[u8], at: TextPlace) -> bool
    ensures { result ≡ is_align text.now at }
{
    scan::peek_is(text, at, b'<') || scan::peek_is(text, at, b'>') || scan::peek_is(text, at, b'^')
}

// The fill: any character, a brace too, that an align follows directly.
fn read_fill(text: &[u8], frame: Frame, at: TextPlace) -> FillRead
    requires { Small text.now frame }
    ensures { result ≡ fill_read text.now frame at }
{
    if let Some(seen) = utf8::peek(text, at.0) {
        let past = TextPlace(at.0 + seen.width);
        if is_align(text, past) {
            let span = scan::span_across(text, frame, at, at);
            return FillRead {
                fill: Some(Fill {
                    code: seen.code,
                    span,
                }),
                at: past,
            };
        }
    }
    FillRead { fill: None, at }
}

pub fn read_align(text: &[u8], at: TextPlace) -> AlignRead
    ensures { result ≡ align_read text.now at }
{
    let left = scan::consume(text, at, b'<');
    if left.ate {
        return AlignRead {
            align: Align::Left,
            at: left.at,
        };
    }
    let right = scan::consume(text, at, b'>');
    if right.ate {
        return AlignRead {
            align: Align::Right,
            at: right.at,
        };
    }
    let center = scan::consume(text, at, b'^');
    if center.ate {
        return AlignRead {
            align: Align::Center,
            at: center.at,
        };
    }
    AlignRead {
        align: Align::Unknown,
        at,
    }
}

pub fn read_sign(text: &[u8], at: TextPlace) -> SignRead
    ensures { result ≡ sign_read text.now at }
{
    let plus = scan::consume(text, at, b'+');
    if plus.ate {
        return SignRead {
            sign: Sign::Plus,
            at: plus.at,
        };
    }
    let minus = scan::consume(text, at, b'-');
    if minus.ate {
        return SignRead {
            sign: Sign::Minus,
            at: minus.at,
        };
    }
    SignRead {
        sign: Sign::Absent,
        at,
    }
}

pub fn is_implied(count: Count) -> bool
    ensures { result ≡ is_implied count }
{
    matches!(count, Count::Implied)
}

// A width that is a count, with the `0` flag beside it.
fn plain_width(text: &[u8], frame: Frame, zero: bool, at: TextPlace) -> WidthRead
    requires { Small text.now frame }
    ensures { result ≡ plain_width text.now frame zero at }
{
    let read = scan::count_at(text, frame, at);
    let span = if is_implied(read.count) {
        None
    } else {
        Some(frame::span_between(text, frame, at, read.at))
    };
    WidthRead {
        zero,
        width: read.count,
        span,
        at: read.at,
        flaw: read.flaw,
        given: read.given,
    }
}

// The `0` flag and the width. A `0` that `$` follows directly is no flag: `0$` is the width.
fn read_width(text: &[u8], frame: Frame, at: TextPlace) -> WidthRead
    requires { Small text.now frame }
    ensures { result ≡ width_read text.now frame at }
{
    let zero = scan::consume(text, at, b'0');
    if !zero.ate {
        return plain_width(text, frame, false, at);
    }
    let dollar = scan::consume(text, zero.at, b'$');
    if dollar.ate {
        return WidthRead {
            zero: false,
            width: Count::ByArgument(Numeral::Within(0)),
            span: Some(scan::span_across(text, frame, at, zero.at)),
            at: dollar.at,
            flaw: Flaw::Clean,
            given: 0,
        };
    }
    plain_width(text, frame, true, zero.at)
}

// What stands after the dot at `dot`: a star, which takes the next argument, or a count.
fn after_dot(text: &[u8], frame: Frame, dot: TextPlace, at: TextPlace, next: usize) -> PrecisionRead
    requires { Small text.now frame × (next < 0x100000) }
    ensures { result ≡ after_dot text.now frame dot at next }
{
    let star = scan::consume(text, at, b'*');
    if star.ate {
        return PrecisionRead {
            precision: Count::ByStar(next),
            span: Some(frame::span_between(text, frame, dot, star.at)),
            at: star.at,
            next: next + 1,
            flaw: Flaw::Clean,
            given: 0,
        };
    }
    let read = scan::count_at(text, frame, at);
    PrecisionRead {
        precision: read.count,
        span: Some(frame::span_between(text, frame, dot, read.at)),
        at: read.at,
        next,
        flaw: read.flaw,
        given: read.given,
    }
}

fn read_precision(text: &[u8], frame: Frame, at: TextPlace, next: usize) -> PrecisionRead
    requires { Small text.now frame × (next < 0x100000) }
    ensures { result ≡ precision_read text.now frame at next }
{
    let dot = scan::consume(text, at, b'.');
    if dot.ate {
        return after_dot(text, frame, at, dot.at, next);
    }
    PrecisionRead {
        precision: Count::Implied,
        span: None,
        at,
        next,
        flaw: Flaw::Clean,
        given: 0,
    }
}

// A type that has no span: `?`, `x`, `X`, `x?`, `X?`, or none. Reading goes on where it ends.
pub(crate) fn sign_type(hex: Hex, typetext: TextRange, flaw: Flaw) -> TypeRead
    ensures { result ≡ sign_type hex typetext typetext.end flaw }
{
    TypeRead {
        hex,
        typetext,
        span: None,
        at: typetext.end,
        flaw,
    }
}

// After an `x` or an `X` that stands at `from`.
fn hex_type(text: &[u8], hex: Hex, from: TextPlace, at: TextPlace) -> TypeRead
    ensures { result ≡ hex_type text.now hex from at }
{
    let debug = scan::consume(text, at, b'?');
    if debug.ate {
        let both = TextRange {
            start: at,
            end: debug.at,
        };
        return sign_type(hex, both, Flaw::Clean);
    }
    let alone = TextRange {
        start: from,
        end: at,
    };
    sign_type(Hex::Absent, alone, Flaw::Clean)
}

// Whether a `#`, `x` or `X` stands at a place.
fn is_hex_or_hash(text: &[u8], at: TextPlace) -> bool
    ensures { result ≡ is_hex_or_hash text.now at }
{
    scan::peek_is(text, at, b'#') || scan::peek_is(text, at, b'x') || scan::peek_is(text, at, b'X')
}

// After a `?` that stands at `from`: a sign of the wrong order is a flaw, and is not passed.
fn debug_type(text: &[u8], from: TextPlace, at: TextPlace) -> TypeRead
    ensures { result ≡ debug_type text.now from at }
{
    let flaw = if is_hex_or_hash(text, at) {
        Flaw::AfterDebug(from)
    } else {
        Flaw::Clean
    };
    let typetext = TextRange {
        start: from,
        end: at,
    };
    sign_type(Hex::Absent, typetext, flaw)
}

// A type that is a word, or none.
pub fn word_type(text: &[u8], frame: Frame, at: TextPlace) -> TypeRead
    requires { Small text.now frame }
    ensures { result ≡ word_type text.now frame at }
{
    let read = scan::word(text, at);
    let end = read.word.end;
    let span = if scan::is_empty(read.word) {
        None
    } else {
        Some(frame::span_between(text, frame, at, end))
    };
    TypeRead {
        hex: Hex::Absent,
        typetext: read.word,
        span,
        at: end,
        flaw: read.flaw,
    }
}

fn read_type(text: &[u8], frame: Frame, at: TextPlace) -> TypeRead
    requires { Small text.now frame }
    ensures { result ≡ type_read text.now frame at }
{
    let lower = scan::consume(text, at, b'x');
    if lower.ate {
        return hex_type(text, Hex::Lower, at, lower.at);
    }
    let upper = scan::consume(text, at, b'X');
    if upper.ate {
        return hex_type(text, Hex::Upper, at, upper.at);
    }
    let debug = scan::consume(text, at, b'?');
    if debug.ate {
        return debug_type(text, at, debug.at);
    }
    word_type(text, frame, at)
}

// The whole Format spec, from after its colon.
pub fn format(text: &[u8], frame: Frame, at: TextPlace, next: usize) -> SpecRead
    requires { Small text.now frame × (next < 0x100000) }
    ensures { result ≡ format_read text.now frame at next }
{
    let filling = read_fill(text, frame, at);
    let aligning = read_align(text, filling.at);
    let signing = read_sign(text, aligning.at);
    let hash = scan::consume(text, signing.at, b'#');
    let wide = read_width(text, frame, hash.at);
    let precise = read_precision(text, frame, wide.at, next);
    let typed = read_type(text, frame, precise.at);
    SpecRead {
        spec: Spec {
            fill: filling.fill,
            align: aligning.align,
            sign: signing.sign,
            alternate: hash.ate,
            zero: wide.zero,
            hex: typed.hex,
            width: wide.width,
            widthspan: wide.span,
            precision: precise.precision,
            precisionspan: precise.span,
            typetext: typed.typetext,
            typespan: typed.span,
        },
        at: typed.at,
        next: precise.next,
        width: wide.flaw,
        precision: precise.flaw,
        typetext: typed.flaw,
        given: wide.given + precise.given,
    }
}
