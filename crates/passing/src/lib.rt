// A step in which nothing is wrong, passed without its record: literal text, doubled braces, and a placeholder that `quick` tells. For runs that write no piece; what is not
// passed here takes the plain step. What is asked of a placeholder that is told, and where reading stands after it, the lane that writes asks, too.
#![tactic(auto)]

pub mod after; // after.rt: the place of a placeholder that is told, and where reading stands after it

ghost use Rattle.std.specs.Prelude.{◌≡◌, true, false, ◌+◌, ◌<◌, eqb, length};
ghost use Rattle.utf8.specs.Choice.{either};
ghost use Rattle.frame.specs.Bounds.{Small};
ghost use Rattle.quick.specs.Tellings.{in_mode, Flawless};
ghost use Rattle.passing.specs.Clear.{OpenAt, ClearTold, LiteralFrom, Passes, PassedText, PassesText};

use crate::after::after_told;
use frame::{Frame, Mode, TextPlace};
use quick::PlaceholderTold;
use reading::State;

// A step that is passed: where reading then stands, and how many characters it gave back.
#[derive(Clone, Copy)]
pub struct Passed {
    pub state: State,
    pub given: usize,
}

fn is_brace(b: u8) -> bool
    ensures { result ≡ either (eqb b 0x7B) (eqb b 0x7D) }
{
    if b == b'{' {
        return true;
    }
    b == b'}'
}

// Whether what is told holds in a mode: a spec is told as Format mode reads it, and without one a placeholder is read alike in each.
pub fn speaks(mode: Mode, colon: bool) -> bool
    ensures { result ≡ in_mode mode colon }
{
    match mode {
        Mode::Format => true,
        Mode::InlineAsm => !colon,
        Mode::Diagnostic => !colon,
    }
}

// Whether nothing is wrong in what is told.
pub fn is_flawless(told: PlaceholderTold) -> bool
    ensures { result ≡ true → Flawless told }
{
    told.closed && !told.place.blank && !told.spec.width.blank && !told.spec.typed.blank
}

// Whether what is told holds in a mode, and nothing is wrong in it.
pub fn told_clear(mode: Mode, told: PlaceholderTold) -> bool
    ensures { result ≡ true → ClearTold mode told }
{
    speaks(mode, told.colon) && is_flawless(told)
}

// Whether a placeholder starts at a byte of the text: an opening brace, and not two.
pub fn is_open(text: &[u8], at: usize) -> bool
    requires { at < length text.now }
    ensures { result ≡ true → OpenAt text.now at }
{
    text[at] == b'{' && utf8::byte(text, at + 1) != b'{'
}

// The step at an opening brace that is not doubled.
fn pass_open(text: &[u8], frame: Frame, mode: Mode, state: State) -> Option<Passed>
    requires { Small text.now frame × (state.next < 0xFFFFE) × OpenAt text.now state.at.0 }
    ensures { Passes text.now frame mode state result }
{
    let told = quick::clear::tell_closed(text, state.at.0 + 1)?;
    if !told_clear(mode, told) {
        return None;
    }
    Some(Passed {
        state: after_told(state, told),
        given: told.spec.given,
    })
}

// The step that is literal text, whose plain characters run on from `from`: its start, or behind a doubled brace. The frame and the mode are there for what is promised: they say which step it is.
fn pass_literal(text: &[u8], frame: Frame, mode: Mode, state: State, from: usize) -> Passed
    requires { LiteralFrom text.now frame mode state from }
    ensures { PassedText text.now frame mode state result }
{
    Passed {
        state: State {
            at: scan::string_end(utf8::whole(text), TextPlace(from)),
            next: state.next,
            arguments: state.arguments,
        },
        given: 0,
    }
}

// The step where reading stands, if it is literal text: a doubled brace, or any character that is none.
pub fn pass_text(text: &[u8], frame: Frame, mode: Mode, state: State) -> Option<Passed>
    requires { Small text.now frame × (state.at.0 < length text.now) }
    ensures { PassesText text.now frame mode state result }
{
    let i = state.at.0;
    let b = text[i];
    if is_brace(b) {
        if utf8::byte(text, i + 1) != b {
            return None;
        }
        return Some(pass_literal(text, frame, mode, state, i + 2));
    }
    Some(pass_literal(text, frame, mode, state, i))
}

// The step where reading stands.
pub fn pass(text: &[u8], frame: Frame, mode: Mode, state: State) -> Option<Passed>
    requires { Small text.now frame × (state.next < 0xFFFFE) }
    ensures { Passes text.now frame mode state result }
{
    let i = state.at.0;
    if text.len() <= i {
        return None;
    }
    if is_open(text, i) {
        return pass_open(text, frame, mode, state);
    }
    pass_text(text, frame, mode, state)
}
