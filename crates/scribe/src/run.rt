// The plain form of a whole text.
ghost use Rattle.frame.specs.Bounds.{Small};
ghost use Rattle.reading.specs.Lists.{pieces};
ghost use Rattle.pen.specs.Pens.{Fits, Laid};
ghost use Rattle.plain.specs.Said.{said};
ghost use Rattle.plain.specs.Plain.{plain_form};
ghost use Rattle.scribe.specs.Scribes.{AllInked};

use crate::parts::put_piece;
use frame::{Frame, Mode};
use turns::{first_cursor, next_piece};

// Lays the plain form over the start of a buffer, as far as it goes, and gives how many bytes it has.
pub fn put_text(out: &mut [u8], text: &[u8], frame: Frame, mode: Mode) -> usize
    requires { Small text.now frame × Fits 1 (plain_form (said text.now (pieces text.now frame mode))) × AllInked (pieces text.now frame mode) }
    ensures { Laid out.old 0 (plain_form (said text.now (pieces text.now frame mode))) result out.new }
{
    let mut k = 0;
    let mut cursor = first_cursor(text);
    while let Some(turn) = next_piece(text, frame, mode, cursor) {
        k = put_piece(&mut *out, k, text, turn.piece);
        cursor = turn.cursor;
    }
    k
}
