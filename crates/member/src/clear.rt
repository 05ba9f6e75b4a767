// Steps in which nothing is wrong, met without their records.
ghost use Rattle.std.specs.Prelude.{◌≡◌, ◌<◌};
ghost use Rattle.frame.specs.Bounds.{Small};
ghost use Rattle.passing.specs.Clear.{OpenAt};
ghost use Rattle.member.specs.Meetings.{kind_taken, taken_told, ClearMet};

use crate::{Met, met_piece, no_sorts, sorts_at};
use frame::{Frame, Mode};
use passing::after::{after_star, after_told, place_of};
use quick::{CountKind, PlaceholderTold};
use reading::State;

// A step that is met: where reading then stands, and what is met with it.
#[derive(Clone, Copy)]
pub struct MetOn {
    pub state: State,
    pub met: Met,
}

// Whether a width or a precision is taken from an argument, a star or a name. A dot with no count behind it takes none.
fn kind_taken(kind: CountKind) -> bool
    ensures { result ≡ kind_taken kind }
{
    match kind {
        CountKind::Nothing => false,
        CountKind::Number(_) => false,
        CountKind::Argument(_) => true,
        CountKind::Star => true,
        CountKind::Name => true,
        CountKind::Dot => false,
    }
}

// Whether one of what is told is.
fn takes_told(told: PlaceholderTold) -> bool
    ensures { result ≡ taken_told told }
{
    if !told.colon {
        return false;
    }
    kind_taken(told.spec.width.kind) || kind_taken(told.spec.precision.kind)
}

// The step at an opening brace that is not doubled.
fn met_open(text: &[u8], frame: Frame, state: State, met: Met) -> Option<MetOn>
    requires { Small text.now frame × (state.next < 0xFFFFE) × OpenAt text.now state.at.0 × (met.pieces < 0x10000000) }
    ensures { ClearMet text.now frame state met result }
{
    let at = state.at.0 + 1;
    let told = quick::clear::tell_closed(text, at)?;
    if !passing::told_clear(Mode::Format, told) {
        return None;
    }
    let spec = told.spec;
    let place = place_of(told.place, at, after_star(spec.precision, state.next));
    let sorts = sorts_at(text, place, takes_told(told));
    Some(MetOn {
        state: after_told(state, told),
        met: met_piece(met, sorts),
    })
}

// The step where reading stands.
pub fn met_clear(text: &[u8], frame: Frame, state: State, met: Met) -> Option<MetOn>
    requires { Small text.now frame × (state.next < 0xFFFFE) × (met.pieces < 0x10000000) }
    ensures { ClearMet text.now frame state met result }
{
    let i = state.at.0;
    if text.len() <= i {
        return None;
    }
    if passing::is_open(text, i) {
        return met_open(text, frame, state, met);
    }
    let passed = passing::pass_text(text, frame, Mode::Format, state)?;
    Some(MetOn {
        state: passed.state,
        met: met_piece(met, no_sorts()),
    })
}
