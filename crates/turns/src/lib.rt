// The next piece and the next error record of a run over the steps, by value.
#![tactic(auto)]

ghost use Rattle.std.specs.Prelude.{◌≡◌, ◌≤◌, length};
ghost use Rattle.frame.specs.Bounds.{Small};
ghost use Rattle.turns.specs.Turns.{Fresh, first_cursor, piece_of, PieceNext, FaultNext};

use frame::{Frame, Mode, TextPlace, TextRange};
use reading::{ErrorRecord, Piece, State, Step};

// Where a run over the steps stands, how many steps it may still take, and how many pieces those before it gave.
#[derive(Clone, Copy)]
pub struct Cursor {
    pub state: State,
    pub left: usize,
    pub pieces: usize,
}

// A piece, and where the run stands after it.
#[derive(Clone, Copy)]
pub struct PieceTurn {
    pub piece: Piece,
    pub cursor: Cursor,
}

// A fault's record, and whether it is put at the front; the step that it is of, and the place after it there.
#[derive(Clone, Copy)]
pub struct FaultTurn {
    pub front: bool,
    pub record: ErrorRecord,
    pub cursor: Cursor,
    pub slot: usize,
}

// The start of a text.
pub fn first_cursor(text: &[u8]) -> Cursor
    requires { length text.now ≤ 65535 }
    ensures { result ≡ first_cursor text.now }
{
    let state = State {
        at: TextPlace(0),
        next: 0,
        arguments: 0,
    };
    Cursor {
        state,
        left: text.len() + 1,
        pieces: 0,
    }
}

// A step's piece: the last step has none.
fn piece_of(step: Step) -> Option<Piece>
    ensures { result ≡ piece_of step }
{
    match step {
        Step::End | Step::Stop(_) => None,
        Step::Literal(view) => Some(Piece::Literal(view)),
        Step::Placeholder(read) => Some(Piece::Placeholder(read.argument)),
    }
}

// The next piece, if there is one: each step but the last has one.
pub fn next_piece(text: &[u8], frame: Frame, mode: Mode, cursor: Cursor) -> Option<PieceTurn>
    requires { Small text.now frame × Fresh cursor }
    ensures { PieceNext text.now frame mode cursor result }
{
    if cursor.left == 0 {
        return None;
    }
    let step = steps::step_at(text, frame, mode, cursor.state);
    let state = steps::go_on(cursor.state, step)?;
    let piece = piece_of(step)?;
    Some(PieceTurn {
        piece,
        cursor: Cursor {
            state,
            left: cursor.left - 1,
            pieces: cursor.pieces + 1,
        },
    })
}

// The next fault's record, if there is one, from a slot of the step at the cursor on.
pub fn next_fault(
    text: &[u8],
    frame: Frame,
    mode: Mode,
    cursor: Cursor,
    slot: usize,
) -> Option<FaultTurn>
    requires { Small text.now frame × Fresh cursor × (slot ≤ 13) }
    ensures { FaultNext text.now frame mode cursor slot result }
{
    let mut on = cursor;
    let mut from = slot;
    // `while`: how many steps are left is the cursor's own, and the next call goes on from there.
    while 0 < on.left {
        let step = steps::step_at(text, frame, mode, on.state);
        let k = faults::first_wrong(step, from);
        if k < 13 {
            let fault = faults::fault_at(step, k);
            return Some(FaultTurn {
                front: faults::is_front(fault),
                record: faults::record_of(text, frame, fault, on.pieces),
                cursor: on,
                slot: k + 1,
            });
        }
        let state = steps::go_on(on.state, step)?;
        on = Cursor {
            state,
            left: on.left - 1,
            pieces: on.pieces + 1,
        };
        from = 0;
    }
    None
}
