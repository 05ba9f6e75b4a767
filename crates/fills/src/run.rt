// A text's pieces and error records, written over the first numbers of two lent lists.
ghost use Rattle.std.specs.Prelude.{◌*◌, ◌≤◌, length};
ghost use Rattle.frame.specs.Bounds.{Small};
ghost use Rattle.reading.specs.Lists.{pieces as pieces_of, errors as errorsOf, found, front_only};
ghost use Rattle.fills.specs.Filling.{Fills};
ghost use Rattle.fills.specs.Lane.{Figures, Ran};

use crate::lane::{lane_in, write_left};
use frame::{Frame, Mode, TextPlace};
use reading::State;
use writing::Extent;

// How many pieces and error records a text has, how many arguments the pieces want, how many characters were given back, and where reading stopped.
#[derive(Clone, Copy)]
pub struct Filled {
    pub pieces: usize,
    pub errors: usize,
    pub arguments: usize,
    pub given: usize,
    pub stop: usize,
}

// What a run wrote, and the same figures.
#[derive(Clone, Copy)]
pub struct Written {
    pub extent: Extent,
    pub arguments: usize,
    pub given: usize,
    pub stop: usize,
}

// Writes both lists. Where `fronts` is how many records go to the front, each record goes to its own place at once; where it is 0, those of the
// front are only counted.
fn run(
    text: &[u8],
    frame: Frame,
    mode: Mode,
    fronts: usize,
    pieces: &mut [u32],
    errors: &mut [u32],
) -> Written
    requires { Small text.now frame × (40 * length (pieces_of text.now frame mode) ≤ length pieces.old) × (16 * length (errorsOf text.now frame mode) ≤ length errors.old) × (fronts ≤ length (front_only (found text.now frame mode))) }
    ensures { Ran text.now frame mode fronts pieces.old errors.old result.extent pieces.new errors.new × Figures text.now frame mode result.arguments result.given result.stop }
{
    let mut state = State {
        at: TextPlace(0),
        next: 0,
        arguments: 0,
    };
    let mut extent = Extent {
        pieces: 0,
        low: fronts,
        high: fronts,
        fronts: 0,
    };
    let mut given = 0;
    // `loop`: each stop of the lane says whether there is more.
    loop {
        let stopped = lane_in(text, frame, mode, state, extent.pieces, &mut *pieces);
        let reached = stopped.state;
        let so_far = Extent {
            pieces: stopped.pieces,
            low: extent.low,
            high: extent.high,
            fronts: extent.fronts,
        };
        if text.len() <= reached.at.0 {
            return Written {
                extent: so_far,
                arguments: reached.arguments,
                given: given + stopped.given,
                stop: reached.at.0,
            };
        }
        let step = write_left(
            text,
            frame,
            mode,
            reached,
            &mut *pieces,
            &mut *errors,
            so_far,
        );
        extent = step.extent;
        given = given + stopped.given + step.given;
        let Some(next) = step.next else {
            return Written {
                extent,
                arguments: reached.arguments,
                given,
                stop: reached.at.0,
            };
        };
        state = next;
    }
}

// The pieces and the error records of a text, how many there are, and the figures of its reading. A text without records of the front is read once.
pub fn fill(text: &[u8], frame: Frame, mode: Mode, pieces: &mut [u32], errors: &mut [u32]) -> Filled
    requires { Small text.now frame × (40 * length (pieces_of text.now frame mode) ≤ length pieces.old) × (16 * length (errorsOf text.now frame mode) ≤ length errors.old) }
    ensures { Fills text.now frame mode pieces.old pieces.new errors.old errors.new result }
{
    let first = run(text, frame, mode, 0, &mut *pieces, &mut *errors);
    if 0 < first.extent.fronts {
        run(text, frame, mode, first.extent.fronts, pieces, errors);
    }
    Filled {
        pieces: first.extent.pieces,
        errors: first.extent.fronts + first.extent.high,
        arguments: first.arguments,
        given: first.given,
        stop: first.stop,
    }
}
