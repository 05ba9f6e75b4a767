// The finish of a text that arrived in parts: it is read into lists that the caller lends.
#![tactic(auto)]

ghost use Rattle.uploads.specs.Finishes.{Finished};

use reader::call::read_by;
use reading::{Answer, ErrorRecord, Piece, Request};
use upload::{asked_of, taken};
use uploads::Upload;

// Reads the bytes that were taken into four lists, by the check that was carried. A refusal changes no list.
pub fn finish(
    state: Upload,
    buffer: &[u8],
    snippet: &[u8],
    request: Request,
    pieces: &mut [Piece],
    errors: &mut [ErrorRecord],
    places: &mut [usize],
    lines: &mut [usize],
) -> Answer
    ensures { Finished state buffer.now snippet.now request pieces.old pieces.new errors.old errors.new places.old places.new lines.old lines.new result }
{
    let text = taken(state, buffer);
    let asked = asked_of(state, buffer, request);
    read_by(text, snippet, asked, pieces, errors, places, lines)
}
