// The public call, over lists that the caller lends.
ghost use Rattle.reading.specs.Calls.{Read};
ghost use Rattle.reader.specs.Reads.{ReadBy};

use crate::lists::{fill_errors, fill_pieces};
use answer::Asked;
use answer::decide::{decide_by, fresh};
use reading::{Answer, ErrorRecord, Piece, Request, Rooms};
use spans::{fill_lines, fill_places};

// Reads a text, of which something may be known, into four lists; a span takes two numbers of its list. A refusal changes no list.
// A text whose count of errors is 0 is not read for them.
pub fn read_by(
    text: &[u8],
    snippet: &[u8],
    asked: Asked,
    pieces: &mut [Piece],
    errors: &mut [ErrorRecord],
    places: &mut [usize],
    lines: &mut [usize],
) -> Answer
    ensures { ReadBy text.now snippet.now asked pieces.old pieces.new errors.old errors.new places.old places.new lines.old lines.new result }
{
    let rooms = Rooms {
        pieces: pieces.len(),
        errors: errors.len(),
        places: places.len() / 2,
        lines: lines.len() / 2,
    };
    let decision = decide_by(text, snippet, asked, rooms);
    let answer = decision.answer;
    if let Some(readable) = decision.done {
        let frame = readable.frame;
        let mode = readable.mode;
        fill_pieces(text, frame, mode, pieces);
        if answer.counts.errors != 0 {
            fill_errors(text, frame, mode, errors);
        }
        fill_places(text, frame, mode, places);
        fill_lines(text, frame, mode, lines);
    }
    answer
}

// Reads a fresh text.
pub fn read(
    text: &[u8],
    snippet: &[u8],
    request: Request,
    pieces: &mut [Piece],
    errors: &mut [ErrorRecord],
    places: &mut [usize],
    lines: &mut [usize],
) -> Answer
    ensures { Read text.now snippet.now request pieces.old pieces.new errors.old errors.new places.old places.new lines.old lines.new result }
{
    read_by(text, snippet, fresh(request), pieces, errors, places, lines)
}
