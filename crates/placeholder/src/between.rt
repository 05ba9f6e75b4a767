// All that stands between the braces of a placeholder.
ghost use Rattle.std.specs.Prelude.{◌≡◌, ◌<◌};
ghost use Rattle.frame.specs.Bounds.{Small};
ghost use Rattle.placeholder.specs.Arguments.{resolved, argument_read};

use crate::position::Found;
use crate::{ArgumentFlaws, Place, Spec};
use frame::{Frame, Mode, TextPlace};

#[derive(Clone, Copy)]
pub struct Resolved {
    pub place: Place,
    pub next: usize,
}

// A place and a spec, where reading stands after them, and the next argument's number.
#[derive(Clone, Copy)]
pub struct ArgumentRead {
    pub place: Place,
    // Where the place starts, and where it ends with the whitespace after it.
    pub from: TextPlace,
    pub to: TextPlace,
    pub spec: Spec,
    pub at: TextPlace,
    pub next: usize,
    pub flaws: ArgumentFlaws,
    // How many characters its counts gave back.
    pub given: usize,
}

// A place that is not written takes the next argument.
fn resolve(found: Found, next: usize) -> Resolved
    requires { next < 0x100001 }
    ensures { result ≡ resolved found next }
{
    match found {
        Found::Nothing => Resolved {
            place: Place::Next(next),
            next: next + 1,
        },
        Found::Number(value) => Resolved {
            place: Place::At(value),
            next,
        },
        Found::Word(name) => Resolved {
            place: Place::Named(name),
            next,
        },
    }
}

// The place, whitespace, and the spec. The place is counted after its spec, so that a star comes first.
pub fn argument(text: &[u8], frame: Frame, mode: Mode, at: TextPlace, next: usize) -> ArgumentRead
    requires { Small text.now frame × (next < 0x100000) }
    ensures { result ≡ argument_read text.now frame mode at next }
{
    let placed = crate::position::position(text, at);
    let to = scan::ws(text, placed.at);
    let read = crate::modes::spec(text, frame, mode, to, next);
    let counted = resolve(placed.found, read.next);
    ArgumentRead {
        place: counted.place,
        from: at,
        to,
        spec: read.spec,
        at: read.at,
        next: counted.next,
        flaws: ArgumentFlaws {
            place: placed.flaw,
            raw: placed.raw,
            width: read.width,
            precision: read.precision,
            typetext: read.typetext,
        },
        given: read.given,
    }
}
