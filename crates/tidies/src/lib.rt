// A text's plain form written into a lent output, or a refusal that leaves it as it was. No list is lent.
#![tactic(auto)]

ghost use Rattle.std.specs.Prelude.{◌≡◌, ◌≤◌, length};
ghost use Rattle.plain.specs.Plainly.{plain_of};
ghost use Rattle.tidiness.specs.Tidies.{Tidies};
ghost use Rattle.tidies.specs.Placed.{refused_by, Ready, Placed};

use frame::{Frame, Mode};
use reading::Request;
use scribe::run::put_text;
use tidiness::Tidied;

// What is answered where nothing is written.
fn refused(number: u8, place: usize, bytes: usize) -> Tidied
    ensures { result ≡ refused_by number place bytes }
{
    Tidied {
        number,
        place,
        bytes,
        arguments: 0,
    }
}

// How many bytes the plain form has: laid into one byte, it is only measured.
fn measured(text: &[u8], frame: Frame, mode: Mode) -> usize
    requires { Ready text.now frame mode }
    ensures { result ≡ length (plain_of mode frame text.now) }
{
    let mut margin: [u8; 1] = [0; 1];
    put_text(&mut margin, text, frame, mode)
}

// The plain form, into an output that has room for it.
fn written(out: &mut [u8], text: &[u8], frame: Frame, mode: Mode, arguments: usize) -> Tidied
    requires { Ready text.now frame mode × (length (plain_of mode frame text.now) ≤ length out.old) }
    ensures { Placed text.now frame mode arguments out.old out.new result }
{
    let bytes = put_text(out, text, frame, mode);
    Tidied {
        number: 0,
        place: 0,
        bytes,
        arguments,
    }
}

// An accepted text. A plain form is no longer than its text, so that it is measured only where the output is shorter than that.
fn placed(out: &mut [u8], text: &[u8], frame: Frame, mode: Mode, arguments: usize) -> Tidied
    requires { Ready text.now frame mode }
    ensures { Placed text.now frame mode arguments out.old out.new result }
{
    if text.len() <= out.len() {
        return written(out, text, frame, mode, arguments);
    }
    let bytes = measured(text, frame, mode);
    if out.len() < bytes {
        return refused(11, 0, bytes);
    }
    written(out, text, frame, mode, arguments)
}

// How many errors an accepted text has.
const NO_ERROR: usize = 0;

// The plain form of a text, read with no style, no snippet and no newline marked, over the start of a lent output; or why not.
pub fn tidy(text: &[u8], mode: u8, out: &mut [u8]) -> Tidied
    ensures { Tidies text.now mode out.old out.new result }
{
    let request = Request {
        mode,
        style: None,
        given: false,
        newline: false,
    };
    match answer::decide::opened(text, b"", request) {
        Ok(readable) => {
            let frame = readable.frame;
            let grammar = readable.mode;
            let told = tally::tally(text, readable.chars, frame, grammar);
            if NO_ERROR < told.counts.errors {
                return refused(10, 0, 0);
            }
            placed(out, text, frame, grammar, told.arguments)
        }
        Err(refusal) => refused(u8::from(refusal), refusal.place(), 0),
    }
}
