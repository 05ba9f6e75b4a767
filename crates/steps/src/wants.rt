// How many arguments a piece wants: one more than the largest number in it.
ghost use Rattle.std.specs.Prelude.{◌≡◌};
ghost use Rattle.reading.specs.Wants.{larger, numeral_wants, place_wants, count_wants};
ghost use Rattle.laws.specs.Numbered.{FewPlace, FewCount};

use placeholder::Place;
use scan::{Count, Numeral};

// The larger of two numbers.
#[tactic(auto, unfolding(reading::specs::Wants::larger, utf8::specs::Choice::pick))]
pub fn larger_of(a: usize, b: usize) -> usize
    ensures { result ≡ larger a b }
{
    a.max(b)
}

// By a number that is written: over range, nothing.
fn numeral_wants(number: Numeral) -> usize
    ensures { result ≡ numeral_wants number }
{
    match number {
        Numeral::Within(n) => n as usize + 1,
        Numeral::Over => 0,
    }
}

// By its place.
fn place_wants(place: Place) -> usize
    requires { FewPlace place }
    ensures { result ≡ place_wants place }
{
    match place {
        Place::Next(n) => n + 1,
        Place::At(number) => numeral_wants(number),
        Place::Named(_) => 0,
    }
}

// By its width or its precision.
fn count_wants(count: Count) -> usize
    requires { FewCount count }
    ensures { result ≡ count_wants count }
{
    match count {
        Count::Implied | Count::Fixed(_) | Count::ByName(_, _) => 0,
        Count::ByArgument(number) => numeral_wants(number),
        Count::ByStar(n) => n + 1,
    }
}

// By all three.
pub fn argument_wants(place: Place, width: Count, precision: Count) -> usize
    requires { FewPlace place × FewCount width × FewCount precision }
    ensures { result ≡ larger (place_wants place) (larger (count_wants width) (count_wants precision)) }
{
    let counts = larger_of(count_wants(width), count_wants(precision));
    larger_of(place_wants(place), counts)
}
