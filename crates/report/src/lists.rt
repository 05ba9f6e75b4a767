// The lists of a call: made here, lent to the reader once, and then to what writes them.
use frame::{SnippetPlace, Span, TextPlace, TextRange};
use reading::{Answer, ErrorRecord, Piece, Request};
use std::io;
use std::io::Write;

// How many records a list holds.
pub const ROOM: usize = 1024;

// The piece of nothing but zeros.
const NO_PIECE: Piece = Piece::Literal(TextRange {
    start: TextPlace(0),
    end: TextPlace(0),
});

// The error record of nothing but zeros.
const NO_ERROR: ErrorRecord = ErrorRecord {
    kind: 0,
    span: Span {
        start: SnippetPlace(0),
        end: SnippetPlace(0),
    },
    second: None,
    quoted: None,
    suggestion: None,
    piece: 0,
};

// The four lists; a span takes two numbers of its list.
#[derive(Drop)]
pub struct Lists {
    pub pieces: [Piece; ROOM],
    pub errors: [ErrorRecord; ROOM],
    pub places: [usize; 2 * ROOM],
    pub lines: [usize; 2 * ROOM],
}

impl Lists {
    // Lists of zeros.
    fn new() -> Lists {
        Lists {
            pieces: [NO_PIECE; ROOM],
            errors: [NO_ERROR; ROOM],
            places: [0; 2 * ROOM],
            lines: [0; 2 * ROOM],
        }
    }

    // Reads a text into the lists.
    fn read(&mut self, text: &[u8], snippet: &[u8], request: Request) -> Answer {
        reader::call::read(
            text,
            snippet,
            request,
            &mut self.pieces,
            &mut self.errors,
            &mut self.places,
            &mut self.lines,
        )
    }
}

// Reads a text that is not refused into lists of 1,024 records, and lists them, in full or in short.
pub fn listed<W: Write>(
    out: &mut W,
    full: bool,
    text: &[u8],
    snippet: &[u8],
    request: Request,
) -> io::Result<()> {
    let mut lists = Lists::new();
    let answer = lists.read(text, snippet, request);
    crate::lines::sections(out, full, answer, &lists)
}
