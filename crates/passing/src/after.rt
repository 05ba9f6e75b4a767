// The place of a placeholder that is told, and where reading stands after it.
ghost use Rattle.std.specs.Prelude.{◌≡◌, ◌<◌};
ghost use Rattle.reading.specs.Wants.{larger};
ghost use Rattle.quick.specs.Tellings.{after_star};
ghost use Rattle.passing.specs.After.{place_of, kind_wants, with_counts, told_state};

use frame::{TextPlace, TextRange};
use placeholder::Place;
use quick::{CountKind, CountPart, PlaceKind, PlacePart, PlaceholderTold};
use reading::State;
use scan::Numeral;
use steps::wants::larger_of;

// The next argument's number after a star.
pub fn after_star(part: CountPart, next: usize) -> usize
    requires { next < 0xFFFFE }
    ensures { result ≡ after_star next part }
{
    match part.kind {
        CountKind::Star => next + 1,
        _ => next,
    }
}

// The place that starts at `at`; one that is not written takes the argument's number `next`.
pub fn place_of(part: PlacePart, at: usize, next: usize) -> Place
    ensures { result ≡ place_of at part next }
{
    match part.kind {
        PlaceKind::Nothing => Place::Next(next),
        PlaceKind::Number(value) => Place::At(Numeral::Within(value)),
        PlaceKind::Word => Place::Named(TextRange {
            start: TextPlace(at),
            end: TextPlace(part.end),
        }),
    }
}

// The larger of a figure and what a count wants: most want none, nor does one that is a name, or a dot with no count behind it.
fn with_count(kind: CountKind, next: usize, figure: usize) -> usize
    requires { next < 0xFFFFF }
    ensures { result ≡ larger figure (kind_wants next kind) }
{
    match kind {
        CountKind::Argument(value) => larger_of(figure, value as usize + 1),
        CountKind::Star => larger_of(figure, next + 1),
        _ => figure,
    }
}

// The same of what is told behind a colon.
fn with_counts(told: PlaceholderTold, next: usize, figure: usize) -> usize
    requires { next < 0xFFFFF }
    ensures { result ≡ with_counts next figure told }
{
    if !told.colon {
        return figure;
    }
    let spec = told.spec;
    let wide = with_count(spec.width.kind, next, figure);
    with_count(spec.precision.kind, next, wide)
}

// Where reading stands after what is told: a star takes an argument's number, and then a place that is not written.
pub fn after_told(state: State, told: PlaceholderTold) -> State
    requires { state.next < 0xFFFFE }
    ensures { result ≡ told_state state told }
{
    let at = TextPlace(told.on);
    let after = after_star(told.spec.precision, state.next);
    let figure = with_counts(told, state.next, state.arguments);
    match told.place.kind {
        PlaceKind::Nothing => {
            let next = after + 1;
            State {
                at,
                next,
                arguments: larger_of(figure, next),
            }
        }
        PlaceKind::Number(value) => State {
            at,
            next: after,
            arguments: larger_of(figure, value as usize + 1),
        },
        PlaceKind::Word => State {
            at,
            next: after,
            arguments: figure,
        },
    }
}
