// What a program writes of a call: the lists are made here, lent to the reader, and listed, a line for each record.
// Every function writes behind what its writer holds (listing).
#![tactic(auto)]

ghost use Rattle.std.specs.Prelude.{◌≤◌};

use crate::lists::ROOM;
use reading::{Request, Rooms};
use std::io;
use std::io::Write;

pub mod lists; // lists.rt: the lists that are lent
pub mod lines; // lines.rt: the lines of each list

// A text that is not refused, in full: its answer, and a line for each record of its lists.
pub fn full<W: Write>(
    out: &mut W,
    text: &[u8],
    snippet: &[u8],
    request: Request,
) -> io::Result<()> {
    lists::listed(out, true, text, snippet, request)
}

// A text that is not refused, in short: each list after its count.
pub fn short<W: Write>(
    out: &mut W,
    text: &[u8],
    snippet: &[u8],
    request: Request,
) -> io::Result<()> {
    lists::listed(out, false, text, snippet, request)
}

// As many as asked, and at most as many as a list holds.
fn room(asked: usize) -> usize
    ensures { result ≤ 1024 }
{
    asked.min(ROOM)
}

// A case of a stream: `case K`, the answer with the case's rooms, and the records where it is done.
// The reader changes no list when it refuses, which its contract says, so `changed` is never written.
pub fn one_case<W: Write>(
    out: &mut W,
    k: usize,
    text: &[u8],
    snippet: &[u8],
    request: Request,
    rooms: Rooms,
) -> io::Result<()> {
    let held = Rooms {
        pieces: room(rooms.pieces),
        errors: room(rooms.errors),
        places: room(rooms.places),
        lines: room(rooms.lines),
    };
    let decision = answer::decide::decide(text, snippet, request, held);
    listing::heading(out, b"case ", k)?;
    match decision.done {
        Some(_) => full(out, text, snippet, request),
        None => lines::answer_line(out, decision.answer),
    }
}
