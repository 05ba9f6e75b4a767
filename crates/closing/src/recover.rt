// What is said, and passed, where a closing brace is missing: suggestions from what stands there, and only when two characters remain.
ghost use Rattle.std.specs.Prelude.{◌≡◌, ◌<◌};
ghost use Rattle.frame.specs.Bounds.{Small};
ghost use Rattle.closing.specs.Defaults.{no_marks, no_counts, is_default, is_identifier};
ghost use Rattle.closing.specs.Recovery.{because, gap_at, clean_flaws, passed_to, text_taken, field_hint, field_read, recover_read};
ghost use Rattle.closing.specs.Recovering.{after_question, sign_hint, is_silent};

use frame::{Frame, Mode, Span, TextPlace, TextRange};
use placeholder::{Align, ArgumentFlaws, Fill, Hex, Place, Sign, Spec};
use scan::{Count, Flaw};

// A closing brace is missing before the character at a place, or at the end; then the character that says why: the fill if it is `}`, else the
// opening brace.
#[derive(Clone, Copy)]
pub enum Gap {
    Before(TextPlace, TextPlace),
    AtEnd(TextPlace),
}

// What is said of what stands where a closing brace is missing.
#[derive(Clone, Copy)]
pub enum Hint {
    // Nothing is said: a case like the others, so that one match tells what is.
    Silent,
    // 8: a `?` before `:`, and the word after them.
    DebugFirst(TextPlace, TextRange),
    // 9: a `?` before `}`, without a colon.
    NoColon(TextPlace),
    // 10: an `=` before `}`.
    Equals(TextPlace),
    // 11: an align that is misplaced.
    Misplaced(TextPlace),
    // 12: a `+` without a colon.
    PlusFirst(TextPlace),
    // 13: a field access, from the place's start to the field's end.
    Field(TextPlace, TextPlace),
    // 14: a tuple index, likewise.
    TupleIndex(TextPlace, TextPlace),
    // 15: a `,`.
    Comma(TextPlace),
}

// Where reading stands afterwards, the next argument's number, what was found wrong, and literal text that was passed.
#[derive(Clone, Copy)]
pub struct Recovery {
    pub at: TextPlace,
    pub next: usize,
    // What the word after `?:` found wrong.
    pub word: Flaw,
    // What a field found wrong.
    pub field: ArgumentFlaws,
    pub hint: Hint,
    // In Diagnostic mode the text after a field's colon.
    pub text: TextRange,
    // How many characters a field's counts gave back.
    pub given: usize,
}

// Whether a spec is the one of a placeholder without a colon, spans included.
#[tactic(auto, unfolding(crate::specs::Defaults::no_marks, crate::specs::Defaults::no_counts, crate::specs::Defaults::is_default))]
fn is_default(spec: Spec) -> bool
    ensures { result ≡ is_default spec }
{
    matches!(
        spec,
        Spec {
            fill: None,
            align: Align::Unknown,
            sign: Sign::Absent,
            alternate: false,
            zero: false,
            hex: Hex::Absent,
            width: Count::Implied,
            widthspan: None,
            precision: Count::Implied,
            precisionspan: None,
            typetext,
            typespan: None,
        } if scan::is_empty(typetext)
    )
}

// Whether an argument is a name and nothing else.
#[tactic(auto, unfolding(crate::specs::Defaults::is_identifier))]
pub fn is_identifier(place: Place, spec: Spec) -> bool
    ensures { result ≡ is_identifier place spec }
{
    matches!(place, Place::Named(_)) && is_default(spec)
}

// The character that says why a `}` was expected: the fill, which stands at `from`, if it is `}`, else the opening brace.
#[tactic(auto, unfolding(utf8::specs::Choice::pick))]
pub fn because_of(fill: Option<Fill>, from: TextPlace, brace: TextPlace) -> TextPlace
    ensures { result ≡ because fill from brace }
{
    match fill {
        Some(Fill { code: 0x7D, .. }) => from,
        _ => brace,
    }
}

// A `}` was expected at a place.
pub fn gap_at(text: &[u8], at: TextPlace, why: TextPlace) -> Gap
    ensures { result ≡ gap_at text.now at why }
{
    if at.0 < text.len() {
        Gap::Before(at, why)
    } else {
        Gap::AtEnd(why)
    }
}

fn clean_flaws() -> ArgumentFlaws
    ensures { result ≡ clean_flaws }
{
    ArgumentFlaws {
        place: Flaw::Clean,
        raw: Flaw::Clean,
        width: Flaw::Clean,
        precision: Flaw::Clean,
        typetext: Flaw::Clean,
    }
}

// Reading goes on at a place, with no field and no word read.
fn passed_to(at: TextPlace, next: usize, hint: Hint) -> Recovery
    ensures { result ≡ passed_to at next hint }
{
    Recovery {
        at,
        next,
        word: Flaw::Clean,
        field: clean_flaws(),
        hint,
        text: TextRange { start: at, end: at },
        given: 0,
    }
}

// The literal text that a spec's type is: in Diagnostic mode the type, in the others none.
pub fn text_taken(mode: Mode, typetext: TextRange) -> TextRange
    ensures { result ≡ text_taken mode typetext }
{
    let end = typetext.end;
    match mode {
        Mode::Format | Mode::InlineAsm => TextRange { start: end, end },
        Mode::Diagnostic => typetext,
    }
}

// At a `?`, whose end is `past`: `?}` lacks its colon, `?:` is in the wrong order, any other is passed silently.
#[tactic(auto, unfolding(crate::specs::Recovering::after_question, utf8::specs::Choice::pick))]
fn after_question(text: &[u8], at: TextPlace, past: TextPlace, next: usize) -> Recovery
    ensures { result ≡ after_question text.now at past next }
{
    if scan::peek_is(text, past, b'}') {
        return passed_to(past, next, Hint::NoColon(at));
    }
    let colon = scan::consume(text, past, b':');
    if colon.ate {
        let read = scan::word(text, colon.at);
        return Recovery {
            word: read.flaw,
            ..passed_to(read.word.end, next, Hint::DebugFirst(at, read.word))
        };
    }
    passed_to(past, next, Hint::Silent)
}

// What is said of an align, a `,`, an `=` before `}`, or a `+` at a place; `past` is the place after it.
#[tactic(auto, unfolding(crate::specs::Recovering::sign_hint, utf8::specs::Choice::pick))]
fn sign_hint(text: &[u8], at: TextPlace, past: TextPlace) -> Hint
    ensures { result ≡ sign_hint text.now at past }
{
    if placeholder::format::is_align(text, at) {
        return Hint::Misplaced(at);
    }
    if scan::peek_is(text, at, b',') {
        return Hint::Comma(at);
    }
    if scan::peek_is(text, at, b'+') {
        return Hint::PlusFirst(at);
    }
    if scan::peek_is(text, at, b'=') && scan::peek_is(text, past, b'}') {
        return Hint::Equals(at);
    }
    Hint::Silent
}

pub fn is_silent(hint: Hint) -> bool
    ensures { result ≡ is_silent hint }
{
    matches!(hint, Hint::Silent)
}

// A closed field is an access by name or by number; a nameless one is passed silently.
fn field_hint(place: Place, from: TextPlace, to: TextPlace) -> Hint
    ensures { result ≡ field_hint place from to }
{
    match place {
        Place::Next(_) => Hint::Silent,
        Place::At(_) => Hint::TupleIndex(from, to),
        Place::Named(_) => Hint::Field(from, to),
    }
}

// After a name that starts at `from`: `.` and a field, which is an argument too and takes its numbers, with or without its `}`.
fn read_field(
    text: &[u8],
    frame: Frame,
    mode: Mode,
    from: TextPlace,
    at: TextPlace,
    next: usize,
) -> Recovery
    requires { Small text.now frame × (next < 0x100000) }
    ensures { result ≡ field_read text.now frame mode from at next }
{
    let dot = scan::consume(text, at, b'.');
    if !dot.ate {
        return passed_to(at, next, Hint::Silent);
    }
    let read = placeholder::between::argument(text, frame, mode, dot.at, next);
    let close = scan::consume(text, read.at, b'}');
    let hint = if close.ate {
        field_hint(read.place, from, read.to)
    } else {
        Hint::Silent
    };
    // Without a `}`, reading stands where the field ended.
    Recovery {
        at: close.at,
        next: read.next,
        word: Flaw::Clean,
        field: read.flaws,
        hint,
        text: text_taken(mode, read.spec.typetext),
        given: read.given,
    }
}

// What is said and passed at a place where a closing brace is missing. `from` is where the argument's place starts.
pub fn recover(
    text: &[u8],
    frame: Frame,
    mode: Mode,
    from: TextPlace,
    identifier: bool,
    at: TextPlace,
    next: usize,
) -> Recovery
    requires { Small text.now frame × (next < 0x100000) }
    ensures { result ≡ recover_read text.now frame mode from identifier at next }
{
    let past = scan::past(text, at);
    let second = past.0;
    if text.len() <= second {
        return passed_to(at, next, Hint::Silent);
    }
    if scan::peek_is(text, at, b'?') {
        return after_question(text, at, past, next);
    }
    let hint = sign_hint(text, at, past);
    if !is_silent(hint) {
        return passed_to(past, next, hint);
    }
    if identifier {
        return read_field(text, frame, mode, from, at, next);
    }
    passed_to(at, next, Hint::Silent)
}
