// How many records each list of a reading needs, how many arguments its pieces want, and how many characters it passes.
#![tactic(auto)]

ghost use Rattle.std.specs.Prelude.{◌≡◌, false, [], ◌∷◌, ◌+◌, ◌≤◌, ◌<◌, length, IfSome};
ghost use Rattle.frame.specs.Bounds.{Small};
ghost use Rattle.reading.specs.Faults.{flaw_fault, hint_fault, argument_slots, missing_slots, closing_slots, wrong, faults_of};
ghost use Rattle.reading.specs.Lines.{chars_in, newlines};
ghost use Rattle.reading.specs.Lists.{pieces, counts_of};
ghost use Rattle.reading.specs.Wants.{wants};
ghost use Rattle.reading.specs.Moves.{moves};
ghost use Rattle.utf8.specs.Chars.{chars_from};
ghost use Rattle.laws.specs.MoveLaws.{moves_told};
ghost use Rattle.passing.specs.Clear.{Passes};
ghost use Rattle.laws.specs.Counting.{Countable, sum, piece_count, place_count, closing_lines, line_count, step_counts};

use closing::recover::{Gap, Hint, Recovery};
use closing::whole::{Closing, PlaceholderRead};
use frame::{Frame, Mode, TextPlace, TextRange};
use passing::Passed;
use placeholder::ArgumentFlaws;
use reading::{Counts, State, Step};
use scan::Flaw;

// How many records, how many arguments, and how many moves.
#[derive(Clone, Copy)]
pub struct Tallied {
    pub counts: Counts,
    pub arguments: usize,
    pub moves: usize,
}

// How many newlines stand in a part of the text.
fn newlines_in(text: &[u8], part: TextRange) -> usize
    ensures { (result ≡ newlines (chars_in text.now part)) × (result ≤ length text.now) }
{
    let end = part.end.0;
    let mut i = part.start.0;
    let mut n = 0;
    // `while`: a place goes on by its character's width, which no range gives.
    while i < end {
        let Some(seen) = utf8::peek(text, i) else {
            return n;
        };
        if seen.code == 0x0A {
            n += 1;
        }
        i += seen.width;
    }
    n
}

// A step's pieces: one for a literal and for a placeholder.
fn piece_count(step: Step) -> usize
    ensures { result ≡ piece_count step }
{
    match step {
        Step::End | Step::Stop(_) => 0,
        Step::Literal(_) | Step::Placeholder(_) => 1,
    }
}

// A step's argument places: one for a closed placeholder.
fn place_count(step: Step) -> usize
    ensures { result ≡ place_count step }
{
    match step {
        Step::End | Step::Stop(_) | Step::Literal(_) => 0,
        Step::Placeholder(read) => match read.closing {
            Closing::Closed(_) => 1,
            Closing::Missing(_, _) => 0,
        },
    }
}

// The lines that end in the text passed where a closing brace is missing.
fn closing_lines(text: &[u8], closing: Closing) -> usize
    ensures { (result ≡ closing_lines text.now closing) × (result ≤ length text.now) }
{
    match closing {
        Closing::Closed(_) => 0,
        Closing::Missing(_, on) => newlines_in(text, on.text),
    }
}

// A step's line spans: one for each newline in its literal text, and the last line at the end.
fn line_count(text: &[u8], step: Step) -> usize
    requires { length text.now ≤ 65535 }
    ensures { (result ≡ line_count text.now step) × (result ≤ 131070) }
{
    match step {
        Step::End => 1,
        Step::Stop(_) => 0, // "a stop at a lone `}` adds none"
        Step::Literal(view) => newlines_in(text, view),
        Step::Placeholder(read) => {
            newlines_in(text, read.text) + closing_lines(text, read.closing)
        }
    }
}

// 1 where a leaf found something, else 0.
#[tactic(auto, unfolding(reading::specs::Faults::wrong, utf8::specs::Choice::pick))]
fn flaw_count(flaw: Flaw) -> usize
    ensures { (result ≡ length (wrong (flaw_fault flaw ∷ []))) × (result ≤ 1) }
{
    match flaw {
        Flaw::Clean => 0,
        _ => 1,
    }
}

// 1 where something is said, else 0.
#[tactic(auto, unfolding(reading::specs::Faults::wrong, utf8::specs::Choice::pick))]
fn hint_count(brace: TextPlace, hint: Hint) -> usize
    ensures { (result ≡ length (wrong (hint_fault brace hint ∷ []))) × (result ≤ 1) }
{
    match hint {
        Hint::Silent => 0,
        _ => 1,
    }
}

// How many flaws an argument has.
fn argument_count(flaws: ArgumentFlaws) -> usize
    ensures { (result ≡ length (wrong (argument_slots flaws))) × (result ≤ 5) }
{
    flaw_count(flaws.place)
        + flaw_count(flaws.raw)
        + flaw_count(flaws.width)
        + flaw_count(flaws.precision)
        + flaw_count(flaws.typetext)
}

// How many faults there are where a closing brace is missing: that it is counts for one.
fn missing_count(brace: TextPlace, gap: Gap, on: Recovery) -> usize
    ensures { (result ≡ length (wrong (missing_slots brace gap on))) × (result ≤ 8) }
{
    1 + flaw_count(on.word) + argument_count(on.field) + hint_count(brace, on.hint)
}

// How many faults there are at a placeholder's end.
fn closing_count(brace: TextPlace, closing: Closing) -> usize
    ensures { (result ≡ length (wrong (closing_slots brace closing))) × (result ≤ 8) }
{
    match closing {
        Closing::Closed(_) => 0,
        Closing::Missing(gap, on) => missing_count(brace, gap, on),
    }
}

// How many faults a placeholder has.
fn placeholder_count(read: PlaceholderRead) -> usize
    ensures { (result ≡ length (faults_of (Step.Placeholder read))) × (result ≤ 13) }
{
    let brace = read.argument.range.start;
    argument_count(read.flaws) + closing_count(brace, read.closing)
}

// How many faults a step has.
#[tactic(auto, unfolding(reading::specs::Faults::faults_of, reading::specs::Faults::step_slots, reading::specs::Faults::wrong, utf8::specs::Choice::pick))]
fn fault_count(step: Step) -> usize
    ensures { (result ≡ length (faults_of step)) × (result ≤ 13) }
{
    match step {
        Step::End | Step::Literal(_) => 0,
        Step::Stop(_) => 1,
        Step::Placeholder(read) => placeholder_count(read),
    }
}

// What a step adds to each list. Only source literals give argument places and line spans.
fn step_counts(text: &[u8], frame: Frame, step: Step) -> Counts
    requires { Small text.now frame }
    ensures { (result ≡ step_counts text.now frame step) × Countable 131070 result }
{
    let pieces = piece_count(step);
    let errors = fault_count(step);
    let places = place_count(step);
    if !frame.literal {
        return Counts {
            pieces,
            errors,
            places: 0,
            lines: 0,
        };
    }
    Counts {
        pieces,
        errors,
        places,
        lines: line_count(text, step),
    }
}

fn add(a: Counts, b: Counts) -> Counts
    requires { Countable 0xFFFFFFFFFFFF a × Countable 131070 b }
    ensures { result ≡ sum a b }
{
    Counts {
        pieces: a.pieces + b.pieces,
        errors: a.errors + b.errors,
        places: a.places + b.places,
        lines: a.lines + b.lines,
    }
}

// The moves of a reading that stopped at a byte: each character before it, one more for a lone `}` there, and what was given back. Most
// readings go to the end of the text, whose characters were counted when it was checked.
pub fn moves_told(text: &[u8], chars: usize, stop: usize, given: usize) -> usize
    requires { (chars ≡ length (chars_from text.now 0)) × (length text.now ≤ 65535) × (given ≤ 0xFFFFFFFFFFFF) }
    ensures { result ≡ moves_told text.now stop given }
{
    if stop < text.len() {
        return utf8::chars_between(text, 0, stop) + 1 + given;
    }
    chars + given
}

// What a run came to that is over in a state.
fn finished(text: &[u8], chars: usize, counts: Counts, state: State, given: usize) -> Tallied
    requires { (chars ≡ length (chars_from text.now 0)) × (length text.now ≤ 65535) × (given ≤ 0xFFFFFFFFFFFF) }
    ensures { result ≡ record { counts = counts; arguments = state.arguments; moves = moves_told text.now state.at.0 given } }
{
    Tallied {
        counts,
        arguments: state.arguments,
        moves: moves_told(text, chars, state.at.0, given),
    }
}

// A piece more, and nothing else.
fn one_piece_more(counts: Counts) -> Counts
    requires { Countable 0xFFFFFFFFFFFF counts }
    ensures { result ≡ record { pieces = counts.pieces + 1; errors = counts.errors; places = counts.places; lines = counts.lines } }
{
    Counts {
        pieces: counts.pieces + 1,
        ..counts
    }
}

// The step where reading stands, passed where it adds a piece and nothing else. Of a source literal none is: its steps may add argument places and line spans.
fn pass_piece(text: &[u8], frame: Frame, mode: Mode, state: State) -> Option<Passed>
    requires { Small text.now frame × (state.next < 0xFFFFE) }
    ensures { Passes text.now frame mode state result × IfSome result (λ _. frame.literal ≡ false) }
{
    if frame.literal {
        return None;
    }
    passing::pass(text, frame, mode, state)
}

// How many records the reading of a text with so many characters needs in each list, and its figures; the state keeps how many arguments its
// pieces want.
pub fn tally(text: &[u8], chars: usize, frame: Frame, mode: Mode) -> Tallied
    requires { Small text.now frame × (chars ≡ length (chars_from text.now 0)) }
    ensures { (result.counts ≡ counts_of text.now frame mode) × (result.arguments ≡ wants (pieces text.now frame mode)) × (result.moves ≡ moves text.now frame mode) }
{
    let mut state = State {
        at: TextPlace(0),
        next: 0,
        arguments: 0,
    };
    let mut counts = Counts {
        pieces: 0,
        errors: 0,
        places: 0,
        lines: 0,
    };
    let mut given = 0;
    for _ in 0..text.len() + 1 {
        // most steps are passed; the others are taken whole
        if let Some(passed) = pass_piece(text, frame, mode, state) {
            state = passed.state;
            counts = one_piece_more(counts);
            given += passed.given;
        } else {
            let step = steps::step_at(text, frame, mode, state);
            counts = add(counts, step_counts(text, frame, step));
            given += steps::given_by(step);
            let Some(after) = steps::go_on(state, step) else {
                return finished(text, chars, counts, state, given);
            };
            state = after;
        }
    }
    finished(text, chars, counts, state, given)
}
