// A placeholder from its opening brace to where reading goes on.
ghost use Rattle.std.specs.Prelude.{◌≡◌, ◌<◌, ◌≤◌};
ghost use Rattle.frame.specs.Bounds.{Small};
ghost use Rattle.closing.specs.Wholes.{record_of, missing_read, placeholder_read};

use crate::recover::{Gap, Recovery, because_of, gap_at, is_identifier, recover, text_taken};
use frame::{Frame, Mode, TextPlace, TextRange};
use placeholder::between::ArgumentRead;
use placeholder::{Argument, ArgumentFlaws};

// How a placeholder ends: at its closing brace, which stands at a place, or without one.
#[derive(Clone, Copy)]
pub enum Closing {
    Closed(TextPlace),
    Missing(Gap, Recovery),
}

#[derive(Clone, Copy)]
pub struct PlaceholderRead {
    pub argument: Argument,
    // The literal text that was passed, in Diagnostic mode the type.
    pub text: TextRange,
    pub flaws: ArgumentFlaws,
    pub closing: Closing,
    pub at: TextPlace,
    pub next: usize,
    // How many characters were read for a count and given back, those of a field met in recovery among them.
    pub given: usize,
}

// An argument's record, from its opening brace to where reading stood afterwards.
fn record_of(
    text: &[u8],
    frame: Frame,
    brace: TextPlace,
    read: ArgumentRead,
    end: TextPlace,
) -> Argument
    requires { Small text.now frame }
    ensures { result ≡ record_of text.now frame brace read end }
{
    Argument {
        place: read.place,
        placespan: frame::span_between(text, frame, read.from, read.to),
        spec: read.spec,
        range: TextRange { start: brace, end },
    }
}

// An argument with no closing brace at `at`.
fn missing(
    text: &[u8],
    frame: Frame,
    mode: Mode,
    brace: TextPlace,
    read: ArgumentRead,
    at: TextPlace,
) -> PlaceholderRead
    requires { Small text.now frame × (read.next < 0x100000) × (read.given ≤ 131070) }
    ensures { result ≡ missing_read text.now frame mode brace read at }
{
    // The fill stands after the colon, and the colon where the place ends.
    let why = because_of(read.spec.fill, scan::past(text, read.to), brace);
    let gap = gap_at(text, at, why);
    let identifier = is_identifier(read.place, read.spec);
    let on = recover(text, frame, mode, read.from, identifier, at, read.next);
    PlaceholderRead {
        argument: record_of(text, frame, brace, read, on.at),
        text: text_taken(mode, read.spec.typetext),
        flaws: read.flaws,
        closing: Closing::Missing(gap, on),
        at: on.at,
        next: on.next,
        given: read.given + on.given,
    }
}

// The placeholder whose opening brace stands at `brace`, and whose place starts at `at`.
pub fn placeholder(
    text: &[u8],
    frame: Frame,
    mode: Mode,
    brace: TextPlace,
    at: TextPlace,
    next: usize,
) -> PlaceholderRead
    requires { Small text.now frame × (next < 0xFFFFE) }
    ensures { result ≡ placeholder_read text.now frame mode brace at next }
{
    let read = placeholder::between::argument(text, frame, mode, at, next);
    let end = scan::ws(text, read.at);
    let close = scan::consume(text, end, b'}');
    if !close.ate {
        return missing(text, frame, mode, brace, read, end);
    }
    PlaceholderRead {
        argument: record_of(text, frame, brace, read, close.at),
        text: text_taken(mode, read.spec.typetext),
        flaws: read.flaws,
        closing: Closing::Closed(end),
        at: close.at,
        next: read.next,
        given: read.given,
    }
}
