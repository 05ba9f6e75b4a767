// The totals of texts: one text's added to those so far, in one pass over the steps of its reading; and those of a list in memory.
#![tactic(auto)]

mod clear; // clear.rt: steps in which nothing is wrong, counted without their records

ghost use Rattle.std.specs.Prelude.{◌≡◌, [], ◌∷◌, ◌≤◌, length};
ghost use Rattle.frame.specs.Bounds.{Small};
ghost use Rattle.reading.specs.Lists.{gather, pieces_of};
ghost use Rattle.reading.specs.Faults.{faults_of};
ghost use Rattle.reading.specs.Steps.{reading};
ghost use Rattle.seasons.specs.Totals.{number_line, place_line, star_lines, piece_lines, own, plus, zeros};
ghost use Rattle.seasons.specs.Season.{two_bytes, Counted};
ghost use Rattle.seasons.specs.TotalLaws.{added};
ghost use Rattle.totals.specs.Adding.{Room, fault_lines, step_lines, is_none};
ghost use Rattle.totals.specs.Taking.{Ends, AllAdded};

use crate::clear::add_clear;
use frame::{Frame, Mode};
use placeholder::Place;
use reading::Step;
use scan::{Count, Numeral};
use seasons::Season;

// Counts once more in a line; past the last there is none.
fn count_in(line: usize, totals: &mut [usize])
    requires { Room 1 totals.old }
    ensures { totals.new ≡ added 0 totals.old (line ∷ []) }
{
    if line < totals.len() {
        totals[line] += 1;
    }
}

// The line of a number as a place.
fn number_line(number: Numeral) -> usize
    ensures { result ≡ number_line number }
{
    match number {
        Numeral::Within(_) => 5,
        Numeral::Over => 6,
    }
}

// The line of a place.
fn place_line(place: Place) -> usize
    ensures { result ≡ place_line place }
{
    match place {
        Place::Next(_) => 4,
        Place::At(number) => number_line(number),
        Place::Named(_) => 7,
    }
}

// Counts a precision that is a star.
fn add_star(precision: Count, totals: &mut [usize])
    requires { Room 1 totals.old }
    ensures { totals.new ≡ added 0 totals.old (star_lines precision) }
{
    match precision {
        Count::Implied => {}
        Count::Fixed(_) => {}
        Count::ByName(_, _) => {}
        Count::ByArgument(_) => {}
        Count::ByStar(_) => count_in(23, totals),
    }
}

// Counts a step's piece, if it has one: what kind of piece it is, and its star.
fn add_piece(step: Step, totals: &mut [usize])
    requires { Room 2 totals.old }
    ensures { totals.new ≡ added 0 totals.old (gather piece_lines (pieces_of step)) }
{
    match step {
        Step::End => {}
        Step::Stop(_) => {}
        Step::Literal(_) => count_in(3, totals),
        Step::Placeholder(read) => {
            let argument = read.argument;
            let place = argument.place;
            let spec = argument.spec;
            let precision = spec.precision;
            count_in(place_line(place), &mut *totals);
            add_star(precision, totals);
        }
    }
}

// Counts what a step found wrong; says whether there is nothing. Most find nothing, and are not copied for the walk.
fn add_faults(text: &[u8], frame: Frame, step: Step, totals: &mut [usize]) -> bool
    requires { Small text.now frame × Room 13 totals.old }
    ensures { (totals.new ≡ added 0 totals.old (gather fault_lines (faults_of step))) × (result ≡ is_none (faults_of step)) }
{
    if faults::is_clear(step) {
        return true;
    }
    walk_faults(text, frame, step, totals)
}

// Counts what a step found wrong, each in the line of its kind; says whether there is nothing.
fn walk_faults(text: &[u8], frame: Frame, step: Step, totals: &mut [usize]) -> bool
    requires { Small text.now frame × Room 13 totals.old }
    ensures { (totals.new ≡ added 0 totals.old (gather fault_lines (faults_of step))) × (result ≡ is_none (faults_of step)) }
{
    let first = faults::first_wrong(step, 0);
    // `while`: the slot is the next that is wrong, which `first_wrong` tells for every walk over faults.
    let mut k = first;
    while k < 13 {
        let fault = faults::fault_at(step, k);
        let record = faults::record_of(text, frame, fault, 0);
        count_in(record.kind as usize + 7, &mut *totals);
        k = faults::first_wrong(step, k + 1);
    }
    first == 13
}

// Counts a step: its piece, and what it found wrong; says whether there is nothing.
fn add_step(text: &[u8], frame: Frame, step: Step, totals: &mut [usize]) -> bool
    requires { Small text.now frame × Room 15 totals.old }
    ensures { (totals.new ≡ added 0 totals.old (step_lines step)) × (result ≡ is_none (faults_of step)) }
{
    add_piece(step, &mut *totals);
    add_faults(text, frame, step, totals)
}

// Counts the steps of a text that is not refused, one after the other; says whether none found anything wrong. One that is clear needs no record.
fn add_steps(text: &[u8], frame: Frame, totals: &mut [usize]) -> bool
    requires { Small text.now frame × Room 0xF0001 totals.old }
    ensures { (totals.new ≡ added 0 totals.old (gather step_lines (reading text.now frame Mode.Format))) × (result ≡ is_none (gather faults_of (reading text.now frame Mode.Format))) × Room 1 totals.new }
{
    let cursor = turns::first_cursor(text);
    let mut state = cursor.state;
    let mut sound = true;
    for _ in 0..cursor.left {
        if let Some(passed) = add_clear(text, frame, state, &mut *totals) {
            state = passed.state;
        } else {
            let step = steps::step_at(text, frame, Mode::Format, state);
            sound = add_step(text, frame, step, &mut *totals) && sound;
            let Some(after) = steps::go_on(state, step) else {
                return sound;
            };
            state = after;
        }
    }
    sound
}

// Adds a text's own totals to those so far.
pub fn add_text(text: &[u8], totals: &mut [usize])
    requires { (length text.now ≤ 65535) × (length totals.old ≡ 24) × Room 0x100000 totals.old }
    ensures { totals.new ≡ plus totals.old (own text.now) }
{
    count_in(0, &mut *totals);
    if utf8::valid_prefix(text) < text.len() {
        count_in(1, totals);
        return;
    }
    let frame = frame::frame_of(text, None, false, b"", false);
    if add_steps(text, frame, &mut *totals) {
        count_in(2, totals);
    }
}

// A number of two bytes, low byte first.
pub fn two(low: u8, high: u8) -> usize
    ensures { (result ≤ 65535) × (two_bytes result ≡ low ∷ high ∷ []) }
{
    low as usize + 256 * (high as usize)
}

// Where the text ends whose length stands at a place; none where the bytes break off before that.
fn end_at(bytes: &[u8], at: usize) -> Option<usize>
    requires { at ≤ length bytes.now }
    ensures { Ends bytes.now at result }
{
    if bytes.len() - at < 2 {
        return None;
    }
    let size = two(bytes[at], bytes[at + 1]);
    if bytes.len() - at - 2 < size {
        return None;
    }
    Some(at + 2 + size)
}

// Adds the totals of so many texts, which stand behind the first two bytes; says whether they are there and nothing follows.
fn add_all(bytes: &[u8], count: usize, totals: &mut [usize]) -> bool
    requires { (2 ≤ length bytes.now) × (count ≤ 10000) × (totals.old ≡ zeros) }
    ensures { AllAdded bytes.now count totals.new result }
{
    let mut at = 2;
    for _ in 0..count {
        let Some(past) = end_at(bytes, at) else {
            return false;
        };
        add_text(&bytes[at + 2..past], &mut *totals);
        at = past;
    }
    at == bytes.len()
}

// No totals: the bytes are no list.
fn unlisted() -> Season
    ensures { (result.number ≡ 25) × (result.totals ≡ zeros) }
{
    Season {
        number: 25,
        totals: [0; 24],
    }
}

// What a list of texts in memory comes to: 0 and its totals, or 25 where the bytes are no list.
pub fn count_list(bytes: &[u8]) -> Season
    ensures { Counted bytes.now result }
{
    if bytes.len() < 2 {
        return unlisted();
    }
    let count = two(bytes[0], bytes[1]);
    if 10000 < count {
        return unlisted();
    }
    let mut totals = [0usize; 24];
    if add_all(bytes, count, &mut totals) {
        return Season { number: 0, totals };
    }
    unlisted()
}
