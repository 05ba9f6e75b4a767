// Argument places and line spans, written into lent numbers, two for each span: start, end.
#![tactic(auto)]

ghost use Rattle.std.specs.Prelude.{◌≡◌, [], ◌∷◌, ◌+◌, ◌*◌, ◌≤◌, length};
ghost use Rattle.utf8.specs.Chars.{ch};
ghost use Rattle.frame.specs.Bounds.{Small};
ghost use Rattle.reading.specs.Lines.{chars_in, cut, ended_lines};
ghost use Rattle.reading.specs.Lists.{gather, closed_span, places_of, missing_text, places, lines};
ghost use Rattle.reading.specs.Written.{over, pairs};
ghost use Rattle.spans.specs.Fills.{written, Put, LinesPut, step_chars, last_of};

use closing::whole::Closing;
use frame::{Frame, Mode, SnippetPlace, Span, TextPlace, TextRange};
use reading::{State, Step};

// Where the current line starts, and how many lines are written.
#[derive(Clone, Copy)]
pub struct LineRun {
    pub line: SnippetPlace,
    pub count: usize,
}

// Writes a span as the n-th pair.
fn put_span(out: &mut [usize], n: usize, span: Span)
    requires { 2 * (n + 1) ≤ length out.old }
    ensures { out.new ≡ written out.old n (span ∷ []) }
{
    out[2 * n] = span.start.0;
    out[2 * n + 1] = span.end.0;
}

// Writes a closed placeholder's span, brace to brace, and says how many there are.
fn put_closed(
    text: &[u8],
    frame: Frame,
    brace: TextPlace,
    closing: Closing,
    out: &mut [usize],
    n: usize,
) -> usize
    requires { Small text.now frame × (2 * (n + length (closed_span text.now frame brace closing)) ≤ length out.old) }
    ensures { Put out.old n (closed_span text.now frame brace closing) out.new result }
{
    match closing {
        Closing::Closed(at) => {
            let span = scan::span_across(text, frame, brace, at);
            put_span(out, n, span);
            n + 1
        }
        Closing::Missing(_, _) => n,
    }
}

// Writes a step's argument place, if it has one, and says how many there are.
#[tactic(auto, using(crate::proofs::Filling::put_none))]
fn put_place(text: &[u8], frame: Frame, step: Step, out: &mut [usize], n: usize) -> usize
    requires { Small text.now frame × (2 * (n + length (places_of text.now frame step)) ≤ length out.old) }
    ensures { Put out.old n (places_of text.now frame step) out.new result }
{
    match step {
        Step::End | Step::Stop(_) | Step::Literal(_) => n,
        Step::Placeholder(read) => {
            put_closed(text, frame, read.argument.range.start, read.closing, out, n)
        }
    }
}

// The argument places of a text, over the first pairs of a list.
pub fn fill_places(text: &[u8], frame: Frame, mode: Mode, out: &mut [usize])
    requires { Small text.now frame × (2 * length (places text.now frame mode) ≤ length out.old) }
    ensures { out.new ≡ over (pairs (places text.now frame mode)) out.old }
{
    if !frame.literal {
        return;
    }
    let mut state = State {
        at: TextPlace(0),
        next: 0,
        arguments: 0,
    };
    let mut n = 0;
    for _ in 0..text.len() + 1 {
        let step = steps::step_at(text, frame, mode, state);
        n = put_place(text, frame, step, &mut *out, n);
        let Some(after) = steps::go_on(state, step) else {
            return;
        };
        state = after;
    }
}

// The line's start, past a character that is whitespace and stands there.
#[tactic(auto, unfolding(reading::specs::Lines::cut, utf8::specs::Choice::pick))]
fn cut_line(frame: Frame, line: SnippetPlace, code: u32, at: usize, width: usize) -> SnippetPlace
    requires { (at + width ≤ 65535) × (frame.quote ≤ 257) }
    ensures { result ≡ cut frame line (ch code at width) }
{
    let start = frame::to_snippet(frame, TextPlace(at));
    if start.0 == line.0 && letters::is_space(code) {
        return frame::to_snippet(frame, TextPlace(at + width));
    }
    line
}

// A character of literal text: a newline ends the line, whitespace at its start is cut from it.
fn put_char(
    frame: Frame,
    run: LineRun,
    code: u32,
    at: usize,
    width: usize,
    out: &mut [usize],
) -> LineRun
    requires { (at + width ≤ 65535) × (frame.quote ≤ 257) × (2 * (run.count + length (ended_lines frame run.line (ch code at width ∷ []))) ≤ length out.old) }
    ensures { LinesPut frame run (ch code at width ∷ []) out.old out.new result }
{
    let line = run.line;
    if code == 0x0A {
        let end = frame::to_snippet(frame, TextPlace(at));
        let past = frame::to_snippet(frame, TextPlace(at + width));
        put_span(out, run.count, Span { start: line, end });
        return LineRun {
            line: past,
            count: run.count + 1,
        };
    }
    LineRun {
        line: cut_line(frame, line, code, at, width),
        count: run.count,
    }
}

// A part of the literal text: the lines that end in it.
fn put_part(text: &[u8], frame: Frame, part: TextRange, run: LineRun, out: &mut [usize]) -> LineRun
    requires { Small text.now frame × (2 * (run.count + length (ended_lines frame run.line (chars_in text.now part))) ≤ length out.old) }
    ensures { LinesPut frame run (chars_in text.now part) out.old out.new result }
{
    let end = part.end.0;
    let mut i = part.start.0;
    let mut on = run;
    // `while`: a place goes on by its character's width, which no range gives.
    while i < end {
        let Some(seen) = utf8::peek(text, i) else {
            return on;
        };
        on = put_char(frame, on, seen.code, i, seen.width, &mut *out);
        i += seen.width;
    }
    on
}

// The lines that end in the text passed where a closing brace is missing.
fn put_missing(
    text: &[u8],
    frame: Frame,
    closing: Closing,
    run: LineRun,
    out: &mut [usize],
) -> LineRun
    requires { Small text.now frame × (2 * (run.count + length (ended_lines frame run.line (gather (chars_in text.now) (missing_text closing)))) ≤ length out.old) }
    ensures { LinesPut frame run (gather (chars_in text.now) (missing_text closing)) out.old out.new result }
{
    match closing {
        Closing::Closed(_) => run,
        Closing::Missing(_, on) => { put_part(text, frame, on.text, run, out) }
    }
}

// The lines that end in a step's literal text.
fn put_step(text: &[u8], frame: Frame, step: Step, run: LineRun, out: &mut [usize]) -> LineRun
    requires { Small text.now frame × (2 * (run.count + length (ended_lines frame run.line (step_chars text.now step))) ≤ length out.old) }
    ensures { LinesPut frame run (step_chars text.now step) out.old out.new result }
{
    match step {
        Step::End | Step::Stop(_) => run,
        Step::Literal(view) => put_part(text, frame, view, run, out),
        Step::Placeholder(read) => {
            let on = put_part(text, frame, read.text, run, &mut *out);
            put_missing(text, frame, read.closing, on, out)
        }
    }
}

// The last line, at the end of the text; a stop adds none.
#[tactic(auto, using(crate::proofs::Filling::written_none), unfolding(utf8::specs::Choice::pick))]
fn put_last(frame: Frame, step: Step, run: LineRun, out: &mut [usize])
    requires { 2 * (run.count + length (last_of frame run.line step)) ≤ length out.old }
    ensures { out.new ≡ written out.old run.count (last_of frame run.line step) }
{
    if let Step::End = step {
        let last = Span {
            start: run.line,
            end: frame.end,
        };
        put_span(out, run.count, last);
    }
}

// The line spans of a text, over the first pairs of a list.
pub fn fill_lines(text: &[u8], frame: Frame, mode: Mode, out: &mut [usize])
    requires { Small text.now frame × (2 * length (lines text.now frame mode) ≤ length out.old) }
    ensures { out.new ≡ over (pairs (lines text.now frame mode)) out.old }
{
    if !frame.literal {
        return;
    }
    let mut state = State {
        at: TextPlace(0),
        next: 0,
        arguments: 0,
    };
    let mut run = LineRun {
        line: frame::to_snippet(frame, TextPlace(0)),
        count: 0,
    };
    for _ in 0..text.len() + 1 {
        let step = steps::step_at(text, frame, mode, state);
        run = put_step(text, frame, step, run, &mut *out);
        let Some(after) = steps::go_on(state, step) else {
            put_last(frame, step, run, out);
            return;
        };
        state = after;
    }
}
