// A step, written from its record: its piece, and its error records before or after those that are there.
#![tactic(auto)]

ghost use Rattle.std.specs.Prelude.{◌≡◌, false, [], ◌∷◌, ◌+◌, ◌*◌, ◌≤◌, ◌<◌, length};
ghost use Rattle.frame.specs.Bounds.{Small};
ghost use Rattle.reading.specs.Faults.{is_clean, step_slots};
ghost use Rattle.reading.specs.Records.{record_of};
ghost use Rattle.reading.specs.Steps.{step_at};
ghost use Rattle.words.specs.Laid.{laid};
ghost use Rattle.words.specs.Layout.{error_words};
ghost use Rattle.writing.specs.StepsWritten.{noted_by, noticed, Room, Notes, one_more, StepRoom, Stepped, SteppedOn};

use frame::{Frame, Mode};
use reading::{Fault, State, Step};
use words::{put_argument, put_error, put_literal};

// What is written: how many pieces, where the error records begin and end, and how many records of the front were met.
#[derive(Clone, Copy)]
pub struct Extent {
    pub pieces: usize,
    pub low: usize,
    pub high: usize,
    pub fronts: usize,
}

// Where reading goes on, if it does, what is written, and how many characters the step gave back.
#[derive(Clone, Copy)]
pub struct StepWritten {
    pub next: Option<State>,
    pub extent: Extent,
    pub given: usize,
}

// A fault's record as the n-th, where so many pieces were listed.
fn put_record(text: &[u8], frame: Frame, fault: Fault, piece: usize, errors: &mut [u32], n: usize)
    requires { Small text.now frame × (16 * n + 16 ≤ length errors.old) }
    ensures { errors.new ≡ laid errors.old (16 * n) (error_words (record_of text.now frame piece fault)) }
{
    let record = faults::record_of(text, frame, fault, piece);
    put_error(errors, n, record);
}

// The record of a fault that is not clean: one of the front goes before those that are written, if there is room before them, one of the back after them.
pub fn put_fault(
    text: &[u8],
    frame: Frame,
    fault: Fault,
    errors: &mut [u32],
    extent: Extent,
) -> Extent
    requires { Small text.now frame × (is_clean fault ≡ false) × Room (noted_by extent errors.old) (noticed extent.pieces (fault ∷ [])) }
    ensures { Notes text.now frame extent errors.old (fault ∷ []) result errors.new }
{
    if !faults::is_front(fault) {
        put_record(text, frame, fault, extent.pieces, errors, extent.high);
        return Extent {
            pieces: extent.pieces,
            low: extent.low,
            high: extent.high + 1,
            fronts: extent.fronts,
        };
    }
    if extent.low == 0 {
        return Extent {
            pieces: extent.pieces,
            low: 0,
            high: extent.high,
            fronts: extent.fronts + 1,
        };
    }
    put_record(text, frame, fault, extent.pieces, errors, extent.low - 1);
    Extent {
        pieces: extent.pieces,
        low: extent.low - 1,
        high: extent.high,
        fronts: extent.fronts + 1,
    }
}

// What a step found wrong, if anything: most find nothing, and are not copied for the walk.
fn put_faults(text: &[u8], frame: Frame, step: Step, errors: &mut [u32], extent: Extent) -> Extent
    requires { Small text.now frame × Room (noted_by extent errors.old) (noticed extent.pieces (step_slots step)) }
    ensures { Notes text.now frame extent errors.old (step_slots step) result errors.new }
{
    if faults::is_clear(step) {
        return extent;
    }
    walk_faults(text, frame, step, errors, extent)
}

// The record of each fault, in the order of reading.
fn walk_faults(text: &[u8], frame: Frame, step: Step, errors: &mut [u32], extent: Extent) -> Extent
    requires { Small text.now frame × Room (noted_by extent errors.old) (noticed extent.pieces (step_slots step)) }
    ensures { Notes text.now frame extent errors.old (step_slots step) result errors.new }
{
    let mut after = extent;
    // `while`: the slot is the next that is wrong, which `first_wrong` tells for every walk over faults.
    let mut k = faults::first_wrong(step, 0);
    while k < 13 {
        let fault = faults::fault_at(step, k);
        after = put_fault(text, frame, fault, &mut *errors, after);
        k = faults::first_wrong(step, k + 1);
    }
    after
}

// One more piece.
pub fn one_more(extent: Extent) -> Extent
    requires { extent.pieces < 0xFFFFFFFFFFFFFFF }
    ensures { result ≡ one_more extent }
{
    Extent {
        pieces: extent.pieces + 1,
        low: extent.low,
        high: extent.high,
        fronts: extent.fronts,
    }
}

// A step's piece and its records.
fn put_step(
    text: &[u8],
    frame: Frame,
    step: Step,
    pieces: &mut [u32],
    errors: &mut [u32],
    extent: Extent,
) -> Extent
    requires { Small text.now frame × StepRoom step extent pieces.old errors.old }
    ensures { Stepped text.now frame step extent pieces.old errors.old result pieces.new errors.new }
{
    match step {
        Step::End => extent,
        Step::Stop(_) => put_faults(text, frame, step, errors, extent),
        Step::Literal(view) => {
            put_literal(pieces, extent.pieces, view.start.0, view.end.0);
            one_more(extent)
        }
        Step::Placeholder(read) => {
            let argument = read.argument;
            put_argument(pieces, extent.pieces, argument);
            // Its records have the number of the pieces before its own.
            one_more(put_faults(text, frame, step, errors, extent))
        }
    }
}

// The plain step.
pub fn write_step(
    text: &[u8],
    frame: Frame,
    mode: Mode,
    state: State,
    pieces: &mut [u32],
    errors: &mut [u32],
    extent: Extent,
) -> StepWritten
    requires { Small text.now frame × (state.next < 0xFFFFE) × StepRoom (step_at text.now frame mode state) extent pieces.old errors.old }
    ensures { SteppedOn text.now frame mode state extent pieces.old errors.old result pieces.new errors.new }
{
    let step = steps::step_at(text, frame, mode, state);
    StepWritten {
        next: steps::go_on(state, step),
        extent: put_step(text, frame, step, pieces, errors, extent),
        given: steps::given_by(step),
    }
}
