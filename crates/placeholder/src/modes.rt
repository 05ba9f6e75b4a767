// The spec of each mode, with the colon before it.
ghost use Rattle.std.specs.Prelude.{◌≡◌, ◌<◌};
ghost use Rattle.frame.specs.Bounds.{Small};
ghost use Rattle.placeholder.specs.Specs.{type_only, no_spec, diagnostic_type, after_colon, spec_read};

use crate::format::{SpecRead, TypeRead, sign_type};
use crate::{Align, Fill, Hex, Sign, Spec};
use frame::{Frame, Mode, TextPlace, TextRange};
use scan::{Count, Flaw};

// A spec that has a type and nothing else.
fn type_only(typed: TypeRead, next: usize) -> SpecRead
    ensures { result ≡ type_only typed next }
{
    SpecRead {
        spec: Spec {
            fill: None,
            align: Align::Unknown,
            sign: Sign::Absent,
            alternate: false,
            zero: false,
            hex: typed.hex,
            width: Count::Implied,
            widthspan: None,
            precision: Count::Implied,
            precisionspan: None,
            typetext: typed.typetext,
            typespan: typed.span,
        },
        at: typed.at,
        next,
        width: Flaw::Clean,
        precision: Flaw::Clean,
        typetext: typed.flaw,
        given: 0,
    }
}

// Where no colon stands, there is no spec.
fn no_spec(at: TextPlace, next: usize) -> SpecRead
    ensures { result ≡ no_spec at next }
{
    let none = TextRange { start: at, end: at };
    type_only(sign_type(Hex::Absent, none, Flaw::Clean), next)
}

// A Diagnostic type: all the text to the next brace. Its span takes in the colon at `colon`.
fn diagnostic_type(text: &[u8], frame: Frame, colon: TextPlace, at: TextPlace) -> TypeRead
    requires { Small text.now frame }
    ensures { result ≡ diagnostic_type text.now frame colon at }
{
    let end = scan::string_end(text, at);
    TypeRead {
        hex: Hex::Absent,
        typetext: TextRange { start: at, end },
        span: Some(frame::span_between(text, frame, colon, end)),
        at: end,
        flaw: Flaw::Clean,
    }
}

// The spec after the colon at `colon`.
fn after_colon(
    text: &[u8],
    frame: Frame,
    mode: Mode,
    colon: TextPlace,
    at: TextPlace,
    next: usize,
) -> SpecRead
    requires { Small text.now frame × (next < 0x100000) }
    ensures { result ≡ after_colon text.now frame mode colon at next }
{
    match mode {
        Mode::Format => crate::format::format(text, frame, at, next),
        Mode::InlineAsm => type_only(crate::format::word_type(text, frame, at), next),
        Mode::Diagnostic => type_only(diagnostic_type(text, frame, colon, at), next),
    }
}

// The spec at a place, with its colon.
pub fn spec(text: &[u8], frame: Frame, mode: Mode, at: TextPlace, next: usize) -> SpecRead
    requires { Small text.now frame × (next < 0x100000) }
    ensures { result ≡ spec_read text.now frame mode at next }
{
    let colon = scan::consume(text, at, b':');
    if colon.ate {
        return after_colon(text, frame, mode, at, colon.at, next);
    }
    no_spec(at, next)
}
