// The parts of a placeholder that is told, written.
ghost use Rattle.std.specs.Prelude.{◌≡◌, ◌++◌, ◌+◌, ◌-◌, ◌*◌, ◌≤◌, ◌<◌, ℕ, length};
ghost use Rattle.utf8.specs.Utf8.{peek_at};
ghost use Rattle.frame.specs.Places.{place as place_at};
ghost use Rattle.frame.specs.Bounds.{Small};
ghost use Rattle.placeholder.specs.Specs.{no_spec};
ghost use Rattle.quick.specs.Tellings.{code_seen, fill_of, width_of, count_span};
ghost use Rattle.quick.specs.declared.CountKind as CountKind;
ghost use Rattle.words.specs.Laid.{laid};
ghost use Rattle.words.specs.Layout.{low_of, place_words, fill_words, count_words, spec_words};
ghost use Rattle.passing.specs.After.{place_of};
ghost use Rattle.told.specs.Told.{Put, place_number, kind_number, kind_value, told_head, name_words, type_words};

use frame::{Frame, Span, TextPlace};
use quick::{CountKind, CountPart, PlaceKind, PlacePart, PlaceholderTold, TypeTold};
use words::{hex_word, low, put_zeros, put4};

// The place of what is told, which starts at `at`.
fn put_told_place(out: &mut [u32], k: usize, place: PlacePart, at: usize, next: usize, span: Span)
    requires { k + 4 ≤ length out.old }
    ensures { out.new ≡ laid out.old k (place_words (place_of at place next) span) }
{
    let start = low(span.start.0);
    let end = low(span.end.0);
    match place.kind {
        PlaceKind::Nothing => put4(out, k, low(next), 0, start, end),
        PlaceKind::Number(value) => put4(out, k, value as u32, 0, start, end),
        PlaceKind::Word => put4(out, k, low(at), low(place.end), start, end),
    }
}

// A place's kind as a number.
fn place_number(kind: PlaceKind) -> u32
    ensures { result ≡ place_number kind }
{
    match kind {
        PlaceKind::Nothing => 0,
        PlaceKind::Number(_) => 1,
        PlaceKind::Word => 2,
    }
}

// The first eight numbers of what is told: its range, its place and the place's span.
pub fn put_told_head(
    out: &mut [u32],
    k: usize,
    text: &[u8],
    frame: Frame,
    brace: usize,
    told: PlaceholderTold,
    next: usize,
)
    requires { Small text.now frame × (told.to ≤ length text.now) × (brace < 65535) × (k + 8 ≤ length out.old) }
    ensures { out.new ≡ laid out.old k (told_head text.now frame brace told next) }
{
    let place = told.place;
    let span = frame::span_between(text, frame, TextPlace(brace + 1), TextPlace(told.to));
    put4(
        &mut *out,
        k,
        1,
        low(brace),
        low(told.on),
        place_number(place.kind),
    );
    put_told_place(out, k + 4, place, brace + 1, next, span);
}

// What is told without a colon, as the n-th piece.
pub fn put_bare(
    out: &mut [u32],
    n: usize,
    text: &[u8],
    frame: Frame,
    brace: usize,
    told: PlaceholderTold,
    next: usize,
)
    requires { Small text.now frame × (told.to ≤ length text.now) × (brace < 65535) × (40 * n + 40 ≤ length out.old) }
    ensures { out.new ≡ laid out.old (40 * n) (told_head text.now frame brace told next ++ spec_words (no_spec (place_at told.to) next).spec) }
{
    let k = 40 * n;
    let to = low(told.to);
    put_told_head(&mut *out, k, text, frame, brace, told, next);
    put_zeros(&mut *out, k + 8);
    put4(&mut *out, k + 32, to, to, 0, 0);
    put4(out, k + 36, 0, 0, 0, 0);
}

// The fill between two places; none where they are the same.
pub fn put_told_fill(out: &mut [u32], k: usize, text: &[u8], frame: Frame, at: usize, past: usize)
    requires { Small text.now frame × (k + 4 ≤ length out.old) }
    ensures { out.new ≡ laid out.old k (fill_words (fill_of text.now frame at past)) }
{
    if at == past {
        put4(out, k, 0, 0, 0, 0);
        return;
    }
    let span = scan::span_across(text, frame, TextPlace(at), TextPlace(at));
    put4(
        out,
        k,
        1,
        code_at(text, at),
        low(span.start.0),
        low(span.end.0),
    );
}

// The code of the character at a place; 0 at the end.
pub fn code_at(text: &[u8], at: usize) -> u32
    ensures { result ≡ code_seen (peek_at text.now at) }
{
    match utf8::peek(text, at) {
        Some(seen) => seen.code,
        None => 0,
    }
}

// A count's kind as a number, and its value: the next argument's number for a star.
fn kind_number(kind: CountKind) -> u32
    ensures { result ≡ kind_number kind }
{
    match kind {
        CountKind::Nothing => 0,
        CountKind::Number(_) => 1,
        CountKind::Argument(_) => 2,
        CountKind::Star => 3,
        CountKind::Name => 4,
        CountKind::Dot => 0,
    }
}

fn kind_value(kind: CountKind, next: usize) -> u32
    ensures { result ≡ kind_value next kind }
{
    match kind {
        CountKind::Nothing => 0,
        CountKind::Number(value) => value as u32,
        CountKind::Argument(value) => value as u32,
        CountKind::Star => low(next),
        CountKind::Name => 0,
        CountKind::Dot => 0,
    }
}

// One less; 0 of 0.
fn one_less(at: usize) -> usize
    ensures { result ≡ at - 1 }
{
    if at == 0 { 0 } else { at - 1 }
}

// A count that is a name from `from` on, whose `$` ends at `end`; the count's own span starts at `start`.
fn put_told_name(
    out: &mut [u32],
    k: usize,
    text: &[u8],
    frame: Frame,
    start: usize,
    from: usize,
    end: usize,
)
    requires { Small text.now frame × (k + 8 ≤ length out.old) }
    ensures { out.new ≡ laid out.old k (name_words text.now frame start from end) }
{
    let word = one_less(end);
    let name = frame::span_between(text, frame, TextPlace(from), TextPlace(word));
    let span = frame::span_between(text, frame, TextPlace(start), TextPlace(end));
    put4(&mut *out, k, 4, low(from), low(word), low(name.start.0));
    put4(
        out,
        k + 4,
        low(name.end.0),
        1,
        low(span.start.0),
        low(span.end.0),
    );
}

// A width or a precision, which may be a name from `from` on; its span starts at `start`: with a precision's dot.
#[tactic(auto, using(crate::proofs::Telling::named_wrote, crate::proofs::Telling::count_wrote, crate::proofs::Telling::dot_unnamed))]
pub fn put_told_named(
    out: &mut [u32],
    k: usize,
    text: &[u8],
    frame: Frame,
    start: usize,
    from: usize,
    part: CountPart,
    next: usize,
)
    requires { Small text.now frame × (k + 8 ≤ length out.old) }
    ensures { out.new ≡ laid out.old k (count_words (width_of text.now frame next from part) (count_span text.now frame start part)) }
{
    match part.kind {
        CountKind::Name => put_told_name(out, k, text, frame, start, from, part.end),
        _ => put_told_count(out, k, text, frame, start, part, next),
    }
}

// One that is no name. A dot with no count behind it has a span and no number.
pub fn put_told_count(
    out: &mut [u32],
    k: usize,
    text: &[u8],
    frame: Frame,
    start: usize,
    part: CountPart,
    next: usize,
)
    requires { Small text.now frame × (k + 8 ≤ length out.old) }
    ensures { (from : ℕ) → Put (part.kind ≡ CountKind.Name → ⊥) k 8 (count_words (width_of text.now frame next from part) (count_span text.now frame start part)) out.old out.new }
{
    match part.kind {
        CountKind::Nothing => {
            put4(&mut *out, k, 0, 0, 0, 0);
            put4(out, k + 4, 0, 0, 0, 0);
        }
        _ => {
            let span = frame::span_between(text, frame, TextPlace(start), TextPlace(part.end));
            let number = kind_number(part.kind);
            put4(&mut *out, k, number, kind_value(part.kind, next), 0, 0);
            put4(out, k + 4, 0, 1, low(span.start.0), low(span.end.0));
        }
    }
}

// A type. A word's span is that of its text.
pub fn put_told_type(out: &mut [u32], k: usize, text: &[u8], frame: Frame, typed: TypeTold)
    requires { Small text.now frame × (k + 8 ≤ length out.old) }
    ensures { out.new ≡ laid out.old k (type_words text.now frame typed) }
{
    let hex = typed.hex;
    put4(
        &mut *out,
        k,
        low(typed.from),
        low(typed.end),
        hex_word(hex),
        0,
    );
    if typed.word {
        let span = frame::span_between(text, frame, TextPlace(typed.from), TextPlace(typed.end));
        put4(out, k + 4, 0, 1, low(span.start.0), low(span.end.0));
        return;
    }
    put4(out, k + 4, 0, 0, 0, 0);
}
