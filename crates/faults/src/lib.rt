// What a step found wrong, in the order of reading, and the error record of each fault.
#![tactic(auto)]

ghost use Rattle.std.specs.Prelude.{◌≡◌, true, [], ◌++◌, ◌≤◌, get_or};
ghost use Rattle.frame.specs.Bounds.{Small};
ghost use Rattle.reading.specs.Faults.{is_clean, flaw_fault, gap_fault, hint_fault, argument_slots, missing_slots, closing_slots, step_slots, wrong};
ghost use Rattle.reading.specs.Records.{is_front, span_at, character_at, record_of};
ghost use Rattle.laws.specs.RecordLaws.{kind_of, span_of_fault, second_of, quoted_of, suggestion_of};
ghost use Rattle.faults.specs.Slots.{FirstWrong};

use closing::recover::{Gap, Hint, Recovery};
use closing::whole::Closing;
use frame::{Frame, Span, TextPlace, TextRange};
use placeholder::ArgumentFlaws;
use reading::{ErrorRecord, Fault, Step};
use scan::Flaw;

// What a leaf found, as a fault.
fn of_flaw(flaw: Flaw) -> Fault
    ensures { result ≡ flaw_fault flaw }
{
    match flaw {
        Flaw::Clean => Fault::Clean,
        Flaw::RawName(name) => Fault::RawName(name),
        Flaw::AfterDebug(at) => Fault::AfterDebug(at),
        Flaw::Underscore(word) => Fault::Underscore(word),
        Flaw::TooLarge(digits) => Fault::TooLarge(digits),
    }
}

// A closing brace that is missing, as a fault.
pub fn of_gap(gap: Gap) -> Fault
    ensures { result ≡ gap_fault gap }
{
    match gap {
        Gap::Before(at, why) => Fault::Expected(at, why),
        Gap::AtEnd(why) => Fault::Unclosed(why),
    }
}

// What is said there, as a fault; the opening brace.
pub fn of_hint(brace: TextPlace, hint: Hint) -> Fault
    ensures { result ≡ hint_fault brace hint }
{
    match hint {
        Hint::Silent => Fault::Clean,
        Hint::DebugFirst(at, word) => Fault::DebugFirst(at, word),
        Hint::NoColon(at) => Fault::NoColon(at),
        Hint::Equals(at) => Fault::Equals(at, brace),
        Hint::Misplaced(at) => Fault::Misplaced(at),
        Hint::PlusFirst(at) => Fault::PlusFirst(at),
        Hint::Field(from, to) => Fault::Field(from, to),
        Hint::TupleIndex(from, to) => Fault::TupleIndex(from, to),
        Hint::Comma(at) => Fault::Comma(at, brace),
    }
}

// The k-th of what an argument's five parts found. By a match: an array of the five would be filled anew for each number.
#[tactic(auto, using(laws::specs::FaultLaws::argument_past), unfolding(reading::specs::Faults::argument_slots))]
fn argument_flaw(flaws: ArgumentFlaws, k: usize) -> Flaw
    ensures { flaw_fault result ≡ get_or (argument_slots flaws) k Fault.Clean }
{
    match k {
        0 => flaws.place,
        1 => flaws.raw,
        2 => flaws.width,
        3 => flaws.precision,
        4 => flaws.typetext,
        _ => Flaw::Clean,
    }
}

// The k-th fault where a closing brace is missing: that it is, the word's, the field's five, what is said.
fn missing_fault(brace: TextPlace, gap: Gap, on: Recovery, k: usize) -> Fault
    ensures { result ≡ get_or (missing_slots brace gap on) k Fault.Clean }
{
    match k {
        0 => of_gap(gap),
        1 => of_flaw(on.word),
        2..=6 => of_flaw(argument_flaw(on.field, k - 2)),
        7 => of_hint(brace, on.hint),
        _ => Fault::Clean,
    }
}

// The k-th fault at a placeholder's end.
#[tactic(auto, unfolding(reading::specs::Faults::closing_slots))]
fn closing_fault(brace: TextPlace, closing: Closing, k: usize) -> Fault
    ensures { result ≡ get_or (closing_slots brace closing) k Fault.Clean }
{
    match closing {
        Closing::Closed(_) => Fault::Clean,
        Closing::Missing(gap, on) => missing_fault(brace, gap, on, k),
    }
}

// The k-th of what a placeholder found wrong: its argument's five, then those at its end. Only they are handed on: all that was read would be copied for each.
fn placeholder_fault(flaws: ArgumentFlaws, brace: TextPlace, closing: Closing, k: usize) -> Fault
    ensures { result ≡ get_or (argument_slots flaws ++ closing_slots brace closing) k Fault.Clean }
{
    if k < 5 {
        of_flaw(argument_flaw(flaws, k))
    } else {
        closing_fault(brace, closing, k - 5)
    }
}

// The k-th of what a step found wrong; `Clean` where nothing is, and past the last.
#[tactic(auto, unfolding(reading::specs::Faults::step_slots))]
pub fn fault_at(step: Step, k: usize) -> Fault
    ensures { result ≡ get_or (step_slots step) k Fault.Clean }
{
    match step {
        Step::Stop(at) if k == 0 => Fault::Unmatched(at),
        Step::End | Step::Stop(_) | Step::Literal(_) => Fault::Clean,
        Step::Placeholder(read) => {
            placeholder_fault(read.flaws, read.argument.range.start, read.closing, k)
        }
    }
}

// Whether an argument's five parts found nothing.
#[tactic(auto, unfolding(reading::specs::Faults::argument_slots, reading::specs::Faults::wrong, utf8::specs::Choice::pick))]
fn no_flaws(flaws: ArgumentFlaws) -> bool
    ensures { result ≡ true → wrong (argument_slots flaws) ≡ [] }
{
    matches!(
        flaws,
        ArgumentFlaws {
            place: Flaw::Clean,
            raw: Flaw::Clean,
            width: Flaw::Clean,
            precision: Flaw::Clean,
            typetext: Flaw::Clean,
        }
    )
}

// Whether a placeholder is closed and found nothing wrong: most are, and then no slot is looked at.
fn is_sound(flaws: ArgumentFlaws, closing: Closing) -> bool
    ensures { result ≡ true → (brace : TextPlace) → wrong (argument_slots flaws ++ closing_slots brace closing) ≡ [] }
{
    matches!(closing, Closing::Closed(_)) && no_flaws(flaws)
}

// Whether a step surely found nothing wrong, and there is nothing to walk over.
#[tactic(auto, unfolding(reading::specs::Faults::step_slots, reading::specs::Faults::wrong))]
pub fn is_clear(step: Step) -> bool
    ensures { result ≡ true → wrong (step_slots step) ≡ [] }
{
    match step {
        Step::End | Step::Literal(_) => true,
        Step::Stop(_) => false,
        Step::Placeholder(read) => is_sound(read.flaws, read.closing),
    }
}

// The first slot of a step from `slot` on that is not clean, or 13: the one walk over what a step found wrong.
pub fn first_wrong(step: Step, slot: usize) -> usize
    requires { slot ≤ 13 }
    ensures { FirstWrong step slot result }
{
    if is_clear(step) {
        return 13;
    }
    for k in slot..13 {
        if !is_clean(fault_at(step, k)) {
            return k;
        }
    }
    13
}

// The rules' number of a fault's kind, as records and other languages have it; 0 where nothing is wrong.
fn kind_of(fault: Fault) -> u8
    ensures { result ≡ kind_of fault }
{
    match fault {
        Fault::Clean => 0,
        Fault::Unmatched(_) => 1,
        Fault::Expected(_, _) => 2,
        Fault::Unclosed(_) => 3,
        Fault::RawName(_) => 4,
        Fault::AfterDebug(_) => 5,
        Fault::Underscore(_) => 6,
        Fault::TooLarge(_) => 7,
        Fault::DebugFirst(_, _) => 8,
        Fault::NoColon(_) => 9,
        Fault::Equals(_, _) => 10,
        Fault::Misplaced(_) => 11,
        Fault::PlusFirst(_) => 12,
        Fault::Field(_, _) => 13,
        Fault::TupleIndex(_, _) => 14,
        Fault::Comma(_, _) => 15,
    }
}

// Whether nothing is wrong.
pub fn is_clean(fault: Fault) -> bool
    ensures { result ≡ is_clean fault }
{
    matches!(fault, Fault::Clean)
}

// Whether a fault's record is put at the front: kinds 4, 5 and 8 to 15.
pub fn is_front(fault: Fault) -> bool
    ensures { result ≡ is_front fault }
{
    match fault {
        Fault::Clean
        | Fault::Unmatched(_)
        | Fault::Expected(_, _)
        | Fault::Unclosed(_)
        | Fault::Underscore(_)
        | Fault::TooLarge(_) => false,
        _ => true,
    }
}

// Where a fault is shown.
fn span_of(text: &[u8], frame: Frame, fault: Fault) -> Span
    requires { Small text.now frame }
    ensures { result ≡ span_of_fault text.now frame fault }
{
    match fault {
        Fault::Clean | Fault::Unclosed(_) => Span {
            start: frame.end,
            end: frame.end,
        },
        Fault::Unmatched(at)
        | Fault::DebugFirst(at, _)
        | Fault::NoColon(at)
        | Fault::Equals(at, _)
        | Fault::Misplaced(at)
        | Fault::PlusFirst(at)
        | Fault::Comma(at, _) => scan::span_across(text, frame, at, at),
        Fault::Expected(at, _) => frame::span_between(text, frame, at, at),
        Fault::AfterDebug(at) => {
            let sign = scan::past(text, at);
            scan::span_across(text, frame, sign, sign)
        }
        Fault::RawName(range) | Fault::Underscore(range) => {
            frame::span_between(text, frame, range.start, range.end)
        }
        Fault::TooLarge(digits) => scan::span_across(text, frame, digits.start, digits.end),
        Fault::Field(from, to) | Fault::TupleIndex(from, to) => {
            frame::span_between(text, frame, from, to)
        }
    }
}

// The span of the character at a place.
fn span_at(text: &[u8], frame: Frame, at: TextPlace) -> Option<Span>
    requires { Small text.now frame }
    ensures { result ≡ span_at text.now frame at }
{
    Some(scan::span_across(text, frame, at, at))
}

// The second span: the character that says why a `}` was expected, or the opening brace.
fn second_of(text: &[u8], frame: Frame, fault: Fault) -> Option<Span>
    requires { Small text.now frame }
    ensures { result ≡ second_of text.now frame fault }
{
    match fault {
        Fault::Expected(_, at) | Fault::Unclosed(at) | Fault::Equals(_, at) | Fault::Comma(_, at) =>
            { span_at(text, frame, at) }
        _ => None,
    }
}

// The bytes of the character at a place.
fn character_at(text: &[u8], at: TextPlace) -> Option<TextRange>
    ensures { result ≡ character_at text.now at }
{
    Some(TextRange {
        start: at,
        end: scan::past(text, at),
    })
}

// What is quoted of the text.
fn quoted_of(text: &[u8], fault: Fault) -> Option<TextRange>
    ensures { result ≡ quoted_of text.now fault }
{
    match fault {
        Fault::Expected(at, _) | Fault::Misplaced(at) => character_at(text, at),
        Fault::AfterDebug(at) => character_at(text, scan::past(text, at)),
        Fault::TooLarge(part) | Fault::DebugFirst(_, part) => Some(part),
        _ => None,
    }
}

// The suggestion's span: from the character at a place to the one after it, or that character alone.
fn suggestion_of(text: &[u8], frame: Frame, fault: Fault) -> Option<Span>
    requires { Small text.now frame }
    ensures { result ≡ suggestion_of text.now frame fault }
{
    match fault {
        Fault::RawName(TextRange { start: at, .. }) | Fault::AfterDebug(at) => {
            Some(scan::span_across(text, frame, at, scan::past(text, at)))
        }
        Fault::NoColon(at) => span_at(text, frame, at),
        _ => None,
    }
}

// A fault's error record, where so many pieces were listed.
pub fn record_of(text: &[u8], frame: Frame, fault: Fault, piece: usize) -> ErrorRecord
    requires { Small text.now frame }
    ensures { result ≡ record_of text.now frame piece fault }
{
    ErrorRecord {
        kind: kind_of(fault),
        span: span_of(text, frame, fault),
        second: second_of(text, frame, fault),
        quoted: quoted_of(text, fault),
        suggestion: suggestion_of(text, frame, fault),
        piece,
    }
}
