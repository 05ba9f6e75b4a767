// One step of the reader: a doubled brace with the run after it, a run, a placeholder, a lone `}`, or the end.
#![tactic(auto)]

ghost use Rattle.std.specs.Prelude.{◌≡◌, ◌<◌};
ghost use Rattle.frame.specs.Bounds.{Small};
ghost use Rattle.reading.specs.Steps.{after_open, after_close, step_at, onward};
ghost use Rattle.laws.specs.MoveLaws.{given_by};
ghost use Rattle.laws.specs.Numbered.{Few};

use crate::wants::{argument_wants, larger_of};
use frame::{Frame, Mode, TextPlace, TextRange};
use reading::{State, Step};

pub mod text; // text.rt: a literal's bytes
pub mod wants; // wants.rt: how many arguments a piece wants

// After the `{` at `brace`: a second one doubles it, and the literal's view starts there; else a placeholder.
#[tactic(auto, unfolding(reading::specs::Steps::after_open, utf8::specs::Choice::pick))]
fn after_open(
    text: &[u8],
    frame: Frame,
    mode: Mode,
    brace: TextPlace,
    at: TextPlace,
    next: usize,
) -> Step
    requires { Small text.now frame × (next < 0xFFFFE) }
    ensures { result ≡ after_open text.now frame mode brace at next }
{
    let second = scan::consume(text, at, b'{');
    if second.ate {
        let end = scan::string_end(utf8::whole(text), second.at);
        return Step::Literal(TextRange { start: at, end });
    }
    Step::Placeholder(closing::whole::placeholder(text, frame, mode, brace, at, next))
}

// After the `}` at `brace`: a second one doubles it; alone it stops the reading.
#[tactic(auto, unfolding(reading::specs::Steps::after_close, utf8::specs::Choice::pick))]
fn after_close(text: &[u8], brace: TextPlace, at: TextPlace) -> Step
    ensures { result ≡ after_close text.now brace at }
{
    let second = scan::consume(text, at, b'}');
    if !second.ate {
        return Step::Stop(brace);
    }
    let end = scan::string_end(utf8::whole(text), second.at);
    Step::Literal(TextRange { start: at, end })
}

// The step where reading stands.
pub fn step_at(text: &[u8], frame: Frame, mode: Mode, state: State) -> Step
    requires { Small text.now frame × (state.next < 0xFFFFE) }
    ensures { result ≡ step_at text.now frame mode state }
{
    let at = state.at;
    if text.len() <= at.0 {
        return Step::End;
    }
    let open = scan::consume(text, at, b'{');
    if open.ate {
        return after_open(text, frame, mode, at, open.at, state.next);
    }
    let close = scan::consume(text, at, b'}');
    if close.ate {
        return after_close(text, at, close.at);
    }
    let end = scan::string_end(utf8::whole(text), at);
    Step::Literal(TextRange { start: at, end })
}

// Where reading goes on after a step from a state, and how many arguments the pieces so far want.
#[tactic(auto, unfolding(reading::specs::Wants::argument_wants))]
pub fn go_on(state: State, step: Step) -> Option<State>
    requires { Few step }
    ensures { result ≡ onward state step }
{
    match step {
        Step::End | Step::Stop(_) => None,
        Step::Literal(view) => Some(State {
            at: view.end,
            ..state
        }),
        Step::Placeholder(read) => {
            let argument = read.argument;
            let spec = argument.spec;
            let own = argument_wants(argument.place, spec.width, spec.precision);
            Some(State {
                at: read.at,
                next: read.next,
                arguments: larger_of(state.arguments, own),
            })
        }
    }
}

// What a step gave back.
pub fn given_by(step: Step) -> usize
    ensures { result ≡ given_by step }
{
    match step {
        Step::End | Step::Stop(_) | Step::Literal(_) => 0,
        Step::Placeholder(read) => read.given,
    }
}
