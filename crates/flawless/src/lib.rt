// A placeholder of Format mode in which nothing is wrong, told and written, a short spec as a whole and any other part as soon as it is told: most of what templates hold. It leaves off at the
// first part that is another: a count by an argument, a name or a star, a dot with no count behind it, a number of five digits, `x?`, `r#`, the word `_`, whitespace, a closing
// brace that is missing. `quick::whole` tells most of these.
#![tactic(auto)]

mod short; // short.rt: specs that are counts alone, or a word alone

ghost use Rattle.std.specs.Prelude.{◌≡◌, true, false, ◌+◌, ◌*◌, ◌≤◌, ◌<◌, length, get_or, IfSome};
ghost use Rattle.frame.specs.Bounds.{Small};
ghost use Rattle.frame.specs.Places.{place as place_at};
ghost use Rattle.scan.specs.Words.{word_end};
ghost use Rattle.quick.specs.PartsTold.{Room, PlaceTold, TypeKnown, PlaceEnds};
ghost use Rattle.told.specs.Told.{Spoilt};
ghost use Rattle.flawless.specs.Closed.{is_plain, Ends, SpecPut, FlawlessPut};

use crate::short::{put_told_spec, short_spec};
use frame::{Frame, TextPlace};
use passing::after::after_star;
use quick::{
    CountKind, CountPart, PlaceKind, PlacePart, PlaceholderTold, SignHint, SpecTold, TypeTold,
};
use told::parts::{put_bare, put_told_count, put_told_fill, put_told_head, put_told_type};
use words::{align_word, bit, put4, sign_word};

// The word that is no name.
const UNDERSCORE: u8 = b'_';

// The place of an argument. `r` with a `#` after it and the word `_` are not told; both are looked for only where a word is one byte long.
fn place(text: &[u8], at: usize) -> Option<PlacePart>
    requires { Room text.now at }
    ensures { IfSome result (λ p. PlaceTold text.now at p × (p.blank ≡ false)) }
{
    let b = utf8::byte(text, at);
    if quick::is_digit(b) {
        return Some(quick::number_place(quick::number(text, at)?));
    }
    let end = quick::word_end(text, at);
    if end == at {
        return Some(quick::no_place(at));
    }
    if end == at + 1 {
        if quick::is_raw(text, b, at, end) || b == UNDERSCORE {
            return None;
        }
    }
    Some(PlacePart {
        kind: PlaceKind::Word,
        end,
        blank: false,
    })
}

// The type. Where the closing brace stands there is none, which is most often so. The word at `from` ends at `word`, and is not looked for again.
fn type_at(text: &[u8], at: usize, from: usize, word: usize) -> Option<TypeTold>
    requires { Room text.now at × (word ≡ (word_end text.now (place_at from)).0) }
    ensures { IfSome result (TypeKnown text.now at) }
{
    let b = utf8::byte(text, at);
    if b == b'}' {
        return Some(quick::no_type(at));
    }
    if quick::is_type_sign(b) {
        return quick::sign_type(text, at);
    }
    let end = if at == from {
        word
    } else {
        quick::word_end(text, at)
    };
    Some(quick::word_type(b, at, end))
}

// Whether a count is a number, or none.
fn is_plain(kind: CountKind) -> bool
    ensures { result ≡ is_plain kind }
{
    matches!(kind, CountKind::Nothing | CountKind::Number(_))
}

// Whether a spec ends at its closing brace, and nothing in it is wrong. A `0` with `$` is no flag.
fn ends(text: &[u8], zero: bool, from: usize, width: CountPart, typed: TypeTold) -> bool
    ensures { result ≡ true → Ends text.now zero from width typed }
{
    if typed.blank || width.blank {
        return false;
    }
    if zero && utf8::byte(text, from) == b'$' {
        return false;
    }
    utf8::byte(text, typed.end) == b'}'
}

// Any spec from after its colon, told and written, up to its closing brace. Its marks are read as in `quick`'s `whole`, in place: a call for both would stay a call.
fn write_any_spec(
    out: &mut [u32],
    k: usize,
    text: &[u8],
    frame: Frame,
    at: usize,
    next: usize,
) -> Option<SpecTold>
    requires { Small text.now frame × Room text.now at × (k + 32 ≤ length out.old) }
    ensures { Spoilt k 32 out.old out.new × IfSome result (SpecPut text.now frame at next k out.old out.new) }
{
    let fill = quick::fill_end(text, at);
    put_told_fill(&mut *out, k, text, frame, at, fill);
    let aligning = placeholder::format::read_align(text, TextPlace(fill));
    let align = aligning.align;
    let signing = placeholder::format::read_sign(text, aligning.at);
    let sign = signing.sign;
    let hash = scan::consume(text, signing.at, b'#');
    let flag = scan::consume(text, hash.at, b'0');
    put4(
        &mut *out,
        k + 4,
        align_word(align),
        sign_word(sign),
        bit(hash.ate),
        bit(flag.ate),
    );
    let from = flag.at.0;
    let word = quick::word_at(text, from);
    let width = quick::width(text, from, word.end)?;
    if !is_plain(width.kind) {
        return None;
    }
    put_told_count(&mut *out, k + 8, text, frame, from, width, next);
    let precision = quick::precision(text, width.end)?;
    if !is_plain(precision.kind) {
        return None;
    }
    put_told_count(&mut *out, k + 16, text, frame, width.end, precision, next);
    let typed = type_at(text, precision.end, from, word.end)?;
    put_told_type(out, k + 24, text, frame, typed);
    if !ends(text, flag.ate, from, width, typed) {
        return None;
    }
    Some(SpecTold {
        fill,
        align,
        sign,
        alternate: hash.ate,
        zero: flag.ate,
        from,
        word: word.end,
        width,
        precision,
        typed,
        given: quick::given_back(text, from, word, width),
    })
}

// The spec from after its colon: a short one is told and then written, another is written as it is told.
fn write_spec(
    out: &mut [u32],
    k: usize,
    text: &[u8],
    frame: Frame,
    at: usize,
    next: usize,
) -> Option<SpecTold>
    requires { Small text.now frame × Room text.now at × (k + 32 ≤ length out.old) }
    ensures { Spoilt k 32 out.old out.new × IfSome result (SpecPut text.now frame at next k out.old out.new) }
{
    if let Some(short) = short_spec(text, at) {
        put_told_spec(out, k, text, frame, at, next, short);
        return Some(short);
    }
    write_any_spec(out, k, text, frame, at, next)
}

// A placeholder with a colon at `to`, where its place ends, told and written as the n-th piece: the spec first, and then the head, which tells where it ends.
fn write_with_spec(
    out: &mut [u32],
    n: usize,
    text: &[u8],
    frame: Frame,
    brace: usize,
    place: PlacePart,
    to: usize,
    next: usize,
) -> Option<PlaceholderTold>
    requires { Small text.now frame × Room text.now to × (get_or text.now to 0 ≡ 0x3A) × PlaceEnds text.now (brace + 1) place to × (place.blank ≡ false) × (brace < 65535) × (next < 0xFFFFE) × (40 * n + 40 ≤ length out.old) }
    ensures { Spoilt (40 * n) 40 out.old out.new × IfSome result (FlawlessPut text.now frame brace next (40 * n) out.old out.new) }
{
    let k = 40 * n;
    let spec = write_spec(&mut *out, k + 8, text, frame, to + 1, next)?;
    let close = spec.typed.end;
    let told = PlaceholderTold {
        place,
        to,
        colon: true,
        spec,
        close,
        closed: true,
        hint: SignHint::Silent,
        on: close + 1,
    };
    put_told_head(
        out,
        k,
        text,
        frame,
        brace,
        told,
        after_star(spec.precision, next),
    );
    Some(told)
}

// The placeholder whose opening brace stands at `brace`, told and written as the n-th piece.
pub fn write(
    out: &mut [u32],
    n: usize,
    text: &[u8],
    frame: Frame,
    brace: usize,
    next: usize,
) -> Option<PlaceholderTold>
    requires { Small text.now frame × (brace < length text.now) × (next < 0xFFFFE) × (40 * n + 40 ≤ length out.old) }
    ensures { Spoilt (40 * n) 40 out.old out.new × IfSome result (FlawlessPut text.now frame brace next (40 * n) out.old out.new) }
{
    let place = place(text, brace + 1)?;
    let to = place.end;
    let b = utf8::byte(text, to);
    if b == b':' {
        return write_with_spec(out, n, text, frame, brace, place, to, next);
    }
    if b != b'}' {
        return None;
    }
    let told = PlaceholderTold {
        place,
        to,
        colon: false,
        spec: quick::no_spec(to),
        close: to,
        closed: true,
        hint: SignHint::Silent,
        on: to + 1,
    };
    put_bare(out, n, text, frame, brace, told, next);
    Some(told)
}
