// Short specs: counts alone, as `.2` and `10.3`, or a word alone, as `e`; no fill, no mark before them and nothing after. Such a spec is told by its few bytes before any
// number of it is written.
ghost use Rattle.std.specs.Prelude.{◌≡◌, true, ◌+◌, ◌≤◌, length, get_or, IfSome};
ghost use Rattle.letters.specs.Ascii.{ascii_start};
ghost use Rattle.frame.specs.Bounds.{Small};
ghost use Rattle.quick.specs.Tellings.{spec_of};
ghost use Rattle.quick.specs.PartsTold.{Room};
ghost use Rattle.words.specs.Laid.{laid};
ghost use Rattle.words.specs.Layout.{spec_words};
ghost use Rattle.flawless.specs.Closed.{is_plain};
ghost use Rattle.flawless.specs.Short.{ShortWidth, ShortPrecision, ShortClosed, ShortTold};

use frame::Frame;
use placeholder::{Align, Sign};
use quick::{CountPart, SpecTold, TypeTold};
use told::parts::{put_told_count, put_told_fill, put_told_type};
use words::{align_word, bit, put4, sign_word};

// The least digit that a width begins with here: `0` is a mark.
const FIRST_OF_WIDTH: u8 = b'1';

// The width of counts alone: none where they begin with the dot, else a number that does not begin with `0`, which would be a mark.
fn short_width(text: &[u8], b: u8, at: usize) -> Option<CountPart>
    requires { Room text.now at × (b ≡ get_or text.now at 0) }
    ensures { IfSome result (ShortWidth text.now at) }
{
    if b == b'.' {
        return Some(quick::no_count(at));
    }
    if b < FIRST_OF_WIDTH || b'9' < b {
        return None;
    }
    Some(quick::fixed_count(quick::number(text, at)?))
}

// The precision of counts alone: none, or a dot and a number.
fn short_precision(text: &[u8], at: usize) -> Option<CountPart>
    requires { Room text.now at }
    ensures { IfSome result (ShortPrecision text.now at) }
{
    if utf8::byte(text, at) != b'.' {
        return Some(quick::no_count(at));
    }
    if !quick::is_digit(utf8::byte(text, at + 1)) {
        return None;
    }
    Some(quick::fixed_count(quick::number(text, at + 1)?))
}

// A spec of these parts. It is told where its closing brace stands at its end.
fn short_of(
    text: &[u8],
    at: usize,
    word: usize,
    width: CountPart,
    precision: CountPart,
    typed: TypeTold,
    given: usize,
) -> Option<SpecTold>
    ensures { IfSome result (ShortClosed text.now at word width precision typed given) }
{
    if utf8::byte(text, typed.end) != b'}' {
        return None;
    }
    Some(SpecTold {
        fill: at,
        align: Align::Unknown,
        sign: Sign::Absent,
        alternate: false,
        zero: false,
        from: at,
        word,
        width,
        precision,
        typed,
        given,
    })
}

// Counts alone; the first byte is given.
fn counts_alone(text: &[u8], b: u8, at: usize) -> Option<SpecTold>
    requires { Room text.now at × (b ≡ get_or text.now at 0) }
    ensures { IfSome result (ShortTold text.now at) }
{
    let width = short_width(text, b, at)?;
    let precision = short_precision(text, width.end)?;
    short_of(
        text,
        at,
        at,
        width,
        precision,
        quick::no_type(precision.end),
        0,
    )
}

// A word alone; the letter that it begins with is given. `x` and `X` may begin more, and `_` may be a fault.
fn word_alone(text: &[u8], b: u8, at: usize) -> Option<SpecTold>
    requires { Room text.now at × (b ≡ get_or text.now at 0) × (ascii_start b ≡ true) }
    ensures { IfSome result (ShortTold text.now at) }
{
    if quick::is_type_sign(b) || b == b'_' {
        return None;
    }
    let word = quick::word_at(text, at);
    short_of(
        text,
        at,
        word.end,
        quick::no_count(at),
        quick::no_count(at),
        quick::word_type(b, at, word.end),
        quick::given_back(text, at, word, quick::no_count(at)),
    )
}

// The spec from after its colon, where it is short.
pub fn short_spec(text: &[u8], at: usize) -> Option<SpecTold>
    requires { Room text.now at }
    ensures { IfSome result (ShortTold text.now at) }
{
    let b = utf8::byte(text, at);
    if letters::ascii_start(b) {
        return word_alone(text, b, at);
    }
    counts_alone(text, b, at)
}

// A spec whose counts are numbers or absent. Of a short one the fill and the marks are known to be none, and what is left of this is zeros.
pub fn put_told_spec(
    out: &mut [u32],
    k: usize,
    text: &[u8],
    frame: Frame,
    at: usize,
    next: usize,
    spec: SpecTold,
)
    requires { Small text.now frame × (k + 32 ≤ length out.old) × (is_plain spec.width.kind ≡ true) × (is_plain spec.precision.kind ≡ true) }
    ensures { out.new ≡ laid out.old k (spec_words (spec_of text.now frame at next spec)) }
{
    let align = spec.align;
    let sign = spec.sign;
    let width = spec.width;
    put_told_fill(&mut *out, k, text, frame, at, spec.fill);
    put4(
        &mut *out,
        k + 4,
        align_word(align),
        sign_word(sign),
        bit(spec.alternate),
        bit(spec.zero),
    );
    put_told_count(&mut *out, k + 8, text, frame, spec.from, width, next);
    put_told_count(
        &mut *out,
        k + 16,
        text,
        frame,
        width.end,
        spec.precision,
        next,
    );
    put_told_type(out, k + 24, text, frame, spec.typed);
}
