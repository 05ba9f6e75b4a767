// Records in a lent list: one added at the back, one put in front with a shift, a whole list filled.
ghost use Rattle.std.specs.Prelude.{◌≡◌, ◌<◌, ◌≤◌, ◌+◌, length, set};
ghost use Rattle.frame.specs.Bounds.{Small};
ghost use Rattle.reading.specs.Lists.{pieces as pieces_in, errors as errors_in};
ghost use Rattle.reader.specs.Lent.{in_front, put as put_at, FilledBy};

use frame::{Frame, Mode};
use reading::{ErrorRecord, Piece};
use turns::{first_cursor, next_fault, next_piece};

// Adds one at the back of the first `n`, and says how many there are.
pub fn push<T: Copy>(list: &mut [T], n: usize, item: T) -> usize
    requires { n < length list.old }
    ensures { (result ≡ n + 1) × (list.new ≡ set list.old n item) }
{
    list[n] = item;
    n + 1
}

// Puts a record in front of the first `n`, which move back by one, and says how many there are.
#[tactic(auto, using(crate::proofs::Shift::shifted))]
pub fn insert_front(errors: &mut [ErrorRecord], n: usize, record: ErrorRecord) -> usize
    requires { n < length errors.old }
    ensures { (result ≡ n + 1) × (errors.new ≡ in_front errors.old n «record») }
{
    errors.copy_within(0..n, 1);
    errors[0] = record;
    n + 1
}

// At the front or at the back.
pub fn put(errors: &mut [ErrorRecord], n: usize, front: bool, record: ErrorRecord) -> usize
    requires { n < length errors.old }
    ensures { (result ≡ n + 1) × (errors.new ≡ put_at front errors.old n «record») }
{
    if front {
        insert_front(errors, n, record)
    } else {
        push(errors, n, record)
    }
}

// Fills the first of a list with a text's pieces, and says how many there are.
pub fn fill_pieces(text: &[u8], frame: Frame, mode: Mode, pieces: &mut [Piece]) -> usize
    requires { Small text.now frame × (length (pieces_in text.now frame mode) ≤ length pieces.old) }
    ensures { FilledBy (pieces_in text.now frame mode) pieces.old pieces.new result }
{
    let mut cursor = first_cursor(text);
    let mut n = 0;
    while let Some(turn) = next_piece(text, frame, mode, cursor) {
        n = push(pieces, n, turn.piece);
        cursor = turn.cursor;
    }
    n
}

// Fills the first of a list with a text's error records, each at the back or at the front, and says how many there are.
pub fn fill_errors(text: &[u8], frame: Frame, mode: Mode, errors: &mut [ErrorRecord]) -> usize
    requires { Small text.now frame × (length (errors_in text.now frame mode) ≤ length errors.old) }
    ensures { FilledBy (errors_in text.now frame mode) errors.old errors.new result }
{
    let mut cursor = first_cursor(text);
    let mut slot = 0;
    let mut n = 0;
    while let Some(turn) = next_fault(text, frame, mode, cursor, slot) {
        n = put(errors, n, turn.front, turn.record);
        cursor = turn.cursor;
        slot = turn.slot;
    }
    n
}
