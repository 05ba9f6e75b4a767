// One Format text, no style and no snippet, from standard input to its short listing on standard output: each list after its count.
// Each list counts as one of 256 records; a refusal writes only its number and its place.
#![tactic(auto)]

use reading::{Request, Rooms};
use std::io;
use std::io::Write;

fn main(rt: HostRuntime) -> io::Result<()> {
    // One byte more than the longest text that is read: a longer input is read far enough to be refused as 3.
    let mut text = [0u8; 65536];
    let length = intake::read_full(&mut rt.stdin(), &mut text)?;
    let request = Request {
        mode: 0,
        style: None,
        given: false,
        newline: false,
    };
    let rooms = Rooms {
        pieces: 256,
        errors: 256,
        places: 256,
        lines: 256,
    };
    let decision = answer::decide::decide(&text[..length], b"", request, rooms);
    let mut out = rt.stdout();
    match decision.done {
        Some(_) => report::short(&mut out, &text[..length], b"", request)?,
        None => report::lines::refusal(&mut out, decision.answer)?,
    }
    out.flush()
}
