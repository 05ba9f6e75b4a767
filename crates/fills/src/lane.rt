// The lane: literal text and placeholders, one after another, each written as soon as it is read. It stops where the text ends, where something is wrong,
// and where it does not tell what stands there, which in the other modes than Format is every spec. No struct is lent from inside its loop to a call that stays one (docs/SPEED.md).
ghost use Rattle.std.specs.Prelude.{◌≡◌, true, false, ◌+◌, ◌*◌, ◌≤◌, ◌<◌, length, get_or};
ghost use Rattle.frame.specs.Bounds.{Small};
ghost use Rattle.frame.specs.declared.Mode.{Mode as Modes};
ghost use Rattle.reading.specs.Lists.{pieces_of};
ghost use Rattle.reading.specs.Steps.{step_at};
ghost use Rattle.reading.specs.declared.Step.{Step as Steps};
ghost use Rattle.writing.specs.StepsWritten.{StepRoom, SteppedOn};
ghost use Rattle.passing.specs.Clear.{Doubled, OpenAt};
ghost use Rattle.fills.specs.Lane.{PassedBy, LaneRoom, LaneRan};

use frame::{Frame, Mode, TextPlace, TextRange};
use literal::literal_end;
use passing::after::after_told;
use passing::{Passed, is_open, speaks};
use reading::State;
use told::whole::write_placeholder;
use words::put_literal;
use writing::{Extent, StepWritten, one_more, write_step};
use wrongs::put_wrongs;

// Where the lane stopped, how many pieces are written before it, and how many characters were given back on the way.
#[derive(Clone, Copy)]
pub struct Stopped {
    pub state: State,
    pub pieces: usize,
    pub given: usize,
}

// The step that is literal text: its view is written. The text, the frame and the mode are there for what is promised: they say which step it is.
fn pass_literal(
    text: &[u8],
    frame: Frame,
    mode: Mode,
    state: State,
    n: usize,
    pieces: &mut [u32],
    view: TextRange,
) -> Option<Passed>
    requires { (Steps.Literal view ≡ step_at text.now frame mode state) × (40 * (n + length (pieces_of (step_at text.now frame mode state))) ≤ length pieces.old) }
    ensures { PassedBy text.now frame mode state n pieces.old result pieces.new }
{
    let at = view.end;
    put_literal(pieces, n, view.start.0, at.0);
    Some(Passed {
        state: State {
            at,
            next: state.next,
            arguments: state.arguments,
        },
        given: 0,
    })
}

// The step at the first of two braces: literal text, whose view starts at the second. The text behind takes a call: a second look in place would make both a
// call in the loop.
fn pass_doubled(
    text: &[u8],
    frame: Frame,
    mode: Mode,
    state: State,
    n: usize,
    pieces: &mut [u32],
) -> Option<Passed>
    requires { Small text.now frame × (40 * (n + length (pieces_of (step_at text.now frame mode state))) ≤ length pieces.old) × Doubled text.now state.at.0 }
    ensures { PassedBy text.now frame mode state n pieces.old result pieces.new }
{
    let i = state.at.0;
    let start = TextPlace(i + 1);
    let end = scan::string_end(utf8::whole(text), TextPlace(i + 2));
    pass_literal(
        text,
        frame,
        mode,
        state,
        n,
        pieces,
        TextRange { start, end },
    )
}

// The step at an opening brace.
fn pass_brace(
    text: &[u8],
    frame: Frame,
    mode: Mode,
    state: State,
    n: usize,
    pieces: &mut [u32],
) -> Option<Passed>
    requires { Small text.now frame × (state.next < 0xFFFFE) × (40 * (n + length (pieces_of (step_at text.now frame mode state))) ≤ length pieces.old) × (get_or text.now state.at.0 0 ≡ 0x7B) × (state.at.0 < length text.now) }
    ensures { PassedBy text.now frame mode state n pieces.old result pieces.new }
{
    let i = state.at.0;
    if utf8::byte(text, i + 1) == b'{' {
        return pass_doubled(text, frame, mode, state, n, pieces);
    }
    let Some(told) = flawless::write(pieces, n, text, frame, i, state.next) else {
        return None;
    };
    if !speaks(mode, told.colon) {
        return None;
    }
    Some(Passed {
        state: after_told(state, told),
        given: told.spec.given,
    })
}

// The step where reading stands: passed where it is literal text, or a placeholder that `flawless` tells.
fn pass(
    text: &[u8],
    frame: Frame,
    mode: Mode,
    state: State,
    n: usize,
    pieces: &mut [u32],
) -> Option<Passed>
    requires { Small text.now frame × (state.next < 0xFFFFE) × (40 * (n + length (pieces_of (step_at text.now frame mode state))) ≤ length pieces.old) }
    ensures { PassedBy text.now frame mode state n pieces.old result pieces.new }
{
    let at = state.at;
    let i = at.0;
    if text.len() <= i {
        return None;
    }
    let b = text[i];
    if b == b'{' {
        return pass_brace(text, frame, mode, state, n, pieces);
    }
    if b == b'}' {
        if utf8::byte(text, i + 1) == b'}' {
            return pass_doubled(text, frame, mode, state, n, pieces);
        }
        return None;
    }
    let end = literal_end(text, at);
    pass_literal(
        text,
        frame,
        mode,
        state,
        n,
        pieces,
        TextRange { start: at, end },
    )
}

// Steps from where reading stands, as many as are passed one after another.
fn lane(
    text: &[u8],
    frame: Frame,
    mode: Mode,
    from: State,
    written: usize,
    pieces: &mut [u32],
) -> Stopped
    requires { Small text.now frame × LaneRoom text.now frame mode from written pieces.old }
    ensures { LaneRan text.now frame mode from written pieces.old result pieces.new }
{
    let mut at = from.at.0;
    let mut next = from.next;
    let mut arguments = from.arguments;
    let mut n = written;
    let mut given = 0;
    // `loop`: each step says whether there is another.
    loop {
        let state = State {
            at: TextPlace(at),
            next,
            arguments,
        };
        let Some(step) = pass(text, frame, mode, state, n, &mut *pieces) else {
            return Stopped {
                state,
                pieces: n,
                given,
            };
        };
        let after = step.state;
        at = after.at.0;
        next = after.next;
        arguments = after.arguments;
        n += 1;
        given += step.given;
    }
}

// Copies, for calls that stay calls: what is lent to one is kept in memory from where it is made on (docs/SPEED.md).
fn own_frame(frame: Frame) -> Frame
    ensures { result ≡ frame }
{
    let end = frame.end;
    Frame {
        quote: frame.quote,
        end,
        literal: frame.literal,
    }
}

fn own_state(state: State) -> State
    ensures { result ≡ state }
{
    let at = state.at;
    State {
        at,
        next: state.next,
        arguments: state.arguments,
    }
}

fn own_extent(extent: Extent) -> Extent
    ensures { result ≡ extent }
{
    Extent {
        pieces: extent.pieces,
        low: extent.low,
        high: extent.high,
        fronts: extent.fronts,
    }
}

// The lane, with a text and a frame of its own.
pub fn lane_in(
    text: &[u8],
    frame: Frame,
    mode: Mode,
    state: State,
    n: usize,
    pieces: &mut [u32],
) -> Stopped
    requires { Small text.now frame × LaneRoom text.now frame mode state n pieces.old }
    ensures { LaneRan text.now frame mode state n pieces.old result pieces.new }
{
    lane(utf8::whole(text), own_frame(frame), mode, state, n, pieces)
}

// Whether a placeholder of Format mode starts at a byte of the text.
fn opens(text: &[u8], mode: Mode, at: usize) -> bool
    requires { at < length text.now }
    ensures { result ≡ true → (mode ≡ Modes.Format) × OpenAt text.now at }
{
    match mode {
        Mode::Format => is_open(text, at),
        Mode::InlineAsm => false,
        Mode::Diagnostic => false,
    }
}

// A placeholder of Format mode: what is told there, with the records of what is wrong in it, else the plain step.
fn write_open(
    text: &[u8],
    frame: Frame,
    state: State,
    pieces: &mut [u32],
    errors: &mut [u32],
    extent: Extent,
) -> StepWritten
    requires { Small text.now frame × (state.next < 0xFFFFE) × StepRoom (step_at text.now frame Modes.Format state) extent pieces.old errors.old × OpenAt text.now state.at.0 }
    ensures { SteppedOn text.now frame Modes.Format state extent pieces.old errors.old result pieces.new errors.new }
{
    let i = state.at.0;
    let Some(told) = write_placeholder(&mut *pieces, extent.pieces, text, frame, i, state.next)
    else {
        return write_step(
            utf8::whole(text),
            own_frame(frame),
            Mode::Format,
            own_state(state),
            pieces,
            errors,
            own_extent(extent),
        );
    };
    StepWritten {
        next: Some(after_told(state, told)),
        extent: one_more(put_wrongs(text, frame, i, told, errors, extent)),
        given: told.spec.given,
    }
}

// The step where the lane stopped before the text's end.
pub fn write_left(
    text: &[u8],
    frame: Frame,
    mode: Mode,
    state: State,
    pieces: &mut [u32],
    errors: &mut [u32],
    extent: Extent,
) -> StepWritten
    requires { Small text.now frame × (state.next < 0xFFFFE) × StepRoom (step_at text.now frame mode state) extent pieces.old errors.old × (state.at.0 < length text.now) }
    ensures { SteppedOn text.now frame mode state extent pieces.old errors.old result pieces.new errors.new }
{
    let i = state.at.0;
    if opens(text, mode, i) {
        return write_open(text, frame, state, pieces, errors, extent);
    }
    write_step(
        utf8::whole(text),
        own_frame(frame),
        mode,
        own_state(state),
        pieces,
        errors,
        own_extent(extent),
    )
}
