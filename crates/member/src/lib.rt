// Whether a text is a member template: one pass over the steps of its reading, no list lent.
#![tactic(auto)]

mod clear; // clear.rt: steps in which nothing is wrong, met without their records

ghost use Rattle.std.specs.Prelude.{◌≡◌, ◌<◌};
ghost use Rattle.utf8.specs.Choice.{either};
ghost use Rattle.frame.specs.Bounds.{Small};
ghost use Rattle.frame.specs.Frames.{same};
ghost use Rattle.membership.specs.Members.{number, date, is_taken};
ghost use Rattle.membership.specs.Verdicts.{text_verdict, judged_of};
ghost use Rattle.member.specs.Meetings.{first_after, again_after, sorts_at, no_sorts, met_after, met_step, told, is_other};

use crate::clear::met_clear;
use frame::{Frame, Mode};
use membership::Verdict;
use placeholder::Place;
use reading::{Request, Step};
use scan::Count;

// Which sorts a piece is of.
#[derive(Clone, Copy)]
pub struct Sorts {
    pub unnamed: bool,
    pub taken: bool,
    pub number: bool,
    pub date: bool,
}

// What a run has met: how many pieces, and the first of each sort among them, or their number where none is.
#[derive(Clone, Copy)]
pub struct Met {
    pub pieces: usize,
    pub unnamed: usize,
    pub taken: usize,
    pub number: usize,
    pub again: usize,
    pub date: usize,
}

// Whether a name is "number".
fn is_number(name: &[u8]) -> bool
    ensures { result ≡ same name.now number }
{
    if name.len() != 6 {
        return false;
    }
    if name[0] != b'n' {
        return false;
    }
    if name[1] != b'u' {
        return false;
    }
    if name[2] != b'm' {
        return false;
    }
    if name[3] != b'b' {
        return false;
    }
    if name[4] != b'e' {
        return false;
    }
    name[5] == b'r'
}

// Whether a name is "date".
fn is_date(name: &[u8]) -> bool
    ensures { result ≡ same name.now date }
{
    if name.len() != 4 {
        return false;
    }
    if name[0] != b'd' {
        return false;
    }
    if name[1] != b'a' {
        return false;
    }
    if name[2] != b't' {
        return false;
    }
    name[3] == b'e'
}

// Whether a width or a precision is taken from an argument, a star or a name.
fn is_taken(count: Count) -> bool
    ensures { result ≡ is_taken count }
{
    match count {
        Count::Implied => false,
        Count::Fixed(_) => false,
        Count::ByName(_, _) => true,
        Count::ByArgument(_) => true,
        Count::ByStar(_) => true,
    }
}

// Whether one of the two is.
fn takes(width: Count, precision: Count) -> bool
    ensures { result ≡ either (is_taken width) (is_taken precision) }
{
    if is_taken(width) {
        return true;
    }
    is_taken(precision)
}

// The sorts of a placeholder, from its place and from whether a count of it is taken.
fn sorts_at(text: &[u8], place: Place, taken: bool) -> Sorts
    ensures { result ≡ sorts_at text.now place taken }
{
    match place {
        Place::Next(_) => Sorts {
            unnamed: true,
            taken,
            number: false,
            date: false,
        },
        Place::At(_) => Sorts {
            unnamed: true,
            taken,
            number: false,
            date: false,
        },
        Place::Named(range) => {
            let name = steps::text::literal_text(text, range);
            Sorts {
                unnamed: false,
                taken,
                number: is_number(name),
                date: is_date(name),
            }
        }
    }
}

// A literal is of none.
fn no_sorts() -> Sorts
    ensures { result ≡ no_sorts }
{
    Sorts {
        unnamed: false,
        taken: false,
        number: false,
        date: false,
    }
}

// The first of a sort, where `found` is the first of `n` pieces and one more is of the sort or not.
fn first(found: usize, n: usize, here: bool) -> usize
    requires { n < 0x10000000 }
    ensures { result ≡ first_after found n here }
{
    if found < n {
        return found;
    }
    if here {
        return n;
    }
    n + 1
}

// The second of a sort: behind the first, the first that is there.
fn again(found: usize, second: usize, n: usize, here: bool) -> usize
    requires { n < 0x10000000 }
    ensures { result ≡ again_after found second n here }
{
    if found < n {
        return first(second, n, here);
    }
    n + 1
}

// One piece more.
fn met_piece(met: Met, sorts: Sorts) -> Met
    requires { met.pieces < 0x10000000 }
    ensures { result ≡ met_after met sorts }
{
    let n = met.pieces;
    Met {
        pieces: n + 1,
        unnamed: first(met.unnamed, n, sorts.unnamed),
        taken: first(met.taken, n, sorts.taken),
        number: first(met.number, n, sorts.number),
        again: again(met.number, met.again, n, sorts.number),
        date: first(met.date, n, sorts.date),
    }
}

// A step's piece, if it has one.
fn met_step(text: &[u8], met: Met, step: Step) -> Met
    requires { met.pieces < 0x10000000 }
    ensures { result ≡ met_step text.now met step }
{
    match step {
        Step::End => met,
        Step::Stop(_) => met,
        Step::Literal(_) => met_piece(met, no_sorts()),
        Step::Placeholder(read) => {
            let argument = read.argument;
            let place = argument.place;
            let spec = argument.spec;
            let width = spec.width;
            let precision = spec.precision;
            let taken = takes(width, precision);
            met_piece(met, sorts_at(text, place, taken))
        }
    }
}

// Rules 2 to 5, of all pieces of a text without errors.
fn verdict_of(met: Met) -> Verdict
    ensures { result ≡ told met }
{
    if met.unnamed < met.pieces {
        return Verdict::Broken(2, met.unnamed);
    }
    if met.taken < met.pieces {
        return Verdict::Broken(3, met.taken);
    }
    if met.number == met.pieces {
        return Verdict::Broken(4, met.pieces);
    }
    if met.again < met.pieces {
        return Verdict::Broken(4, met.again);
    }
    if met.date < met.number {
        return Verdict::Broken(5, met.date);
    }
    Verdict::Yes
}

// The verdict on a text that is not refused. The first step that found something wrong ends it: rule 1.
fn checked(text: &[u8], frame: Frame) -> Verdict
    requires { Small text.now frame }
    ensures { result ≡ text_verdict text.now frame }
{
    let cursor = turns::first_cursor(text);
    let mut state = cursor.state;
    let mut met = Met {
        pieces: 0,
        unnamed: 0,
        taken: 0,
        number: 0,
        again: 0,
        date: 0,
    };
    for _ in 0..cursor.left {
        if let Some(clear) = met_clear(text, frame, state, met) {
            state = clear.state;
            met = clear.met;
        } else {
            let step = steps::step_at(text, frame, Mode::Format, state);
            if faults::first_wrong(step, 0) < 13 {
                return Verdict::Broken(1, 0);
            }
            met = met_step(text, met, step);
            let Some(after) = steps::go_on(state, step) else {
                return verdict_of(met);
            };
            state = after;
        }
    }
    verdict_of(met)
}

// Whether a mode is one, and not Format.
fn is_other(mode: u8) -> bool
    ensures { result ≡ is_other mode }
{
    if mode == 0 {
        return false;
    }
    mode <= 2
}

// The verdict on a text: whether it is a member template, and if not, which rule is broken first and where; or why the call is refused.
pub fn judge(text: &[u8], snippet: &[u8], request: Request) -> Verdict
    ensures { result ≡ judged_of text.now snippet.now request }
{
    if is_other(request.mode) {
        return Verdict::Refused(17, 0);
    }
    match answer::decide::opened(text, snippet, request) {
        Ok(readable) => checked(text, readable.frame),
        Err(refusal) => Verdict::Refused(u8::from(refusal), refusal.place()),
    }
}
