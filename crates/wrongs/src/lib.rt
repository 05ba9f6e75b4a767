// The records of what is wrong in a placeholder that is told.
#![tactic(auto)]

ghost use Rattle.std.specs.Prelude.{◌≡◌, [], ◌∷◌, ◌+◌, ◌*◌, ◌≤◌, ◌<◌};
ghost use Rattle.frame.specs.Bounds.{Small};
ghost use Rattle.reading.specs.Faults.{flaw_fault, argument_slots};
ghost use Rattle.quick.specs.Tellings.{blank_flaw, blanks_of, placed_hint};
ghost use Rattle.writing.specs.StepsWritten.{noted_by, noticed, Room, Notes, BackRoom, BackNotes};
ghost use Rattle.wrongs.specs.Wrongs.{why_told, missing_told, told_slots};

use closing::recover::Hint;
use frame::{Frame, TextPlace};
use passing::is_flawless;
use quick::{PlaceholderTold, SignHint};
use told::parts::code_at;
use words::{low, put_bare_error};
use writing::{Extent, put_fault};

// The record of the word `_` from one byte to another, where it stands there, and where the records then end.
fn put_blank(
    text: &[u8],
    frame: Frame,
    blank: bool,
    from: usize,
    to: usize,
    piece: usize,
    errors: &mut [u32],
    high: usize,
) -> usize
    requires { Small text.now frame × BackRoom high errors.old (noticed piece (flaw_fault (blank_flaw blank from to) ∷ [])) }
    ensures { BackNotes text.now frame high errors.old (noticed piece (flaw_fault (blank_flaw blank from to) ∷ [])) result errors.new }
{
    if !blank {
        return high;
    }
    let span = frame::span_between(text, frame, TextPlace(from), TextPlace(to));
    put_bare_error(errors, high, 6, span, piece);
    high + 1
}

// Those of what is told: of its place, its width and its type.
fn put_blanks(
    text: &[u8],
    frame: Frame,
    at: usize,
    told: PlaceholderTold,
    piece: usize,
    errors: &mut [u32],
    high: usize,
) -> usize
    requires { Small text.now frame × BackRoom high errors.old (noticed piece (argument_slots (blanks_of at told))) }
    ensures { BackNotes text.now frame high errors.old (noticed piece (argument_slots (blanks_of at told))) result errors.new }
{
    let place = told.place;
    let spec = told.spec;
    let width = spec.width;
    let precision = spec.precision;
    let typed = spec.typed;
    let high = put_blank(
        text,
        frame,
        place.blank,
        at,
        place.end,
        piece,
        &mut *errors,
        high,
    );
    let high = put_blank(
        text,
        frame,
        width.blank,
        spec.from,
        spec.word,
        piece,
        &mut *errors,
        high,
    );
    put_blank(
        text,
        frame,
        typed.blank,
        precision.end,
        typed.end,
        piece,
        errors,
        high,
    )
}

// The character that says why a closing brace was expected: the fill, after the colon, if it is `}`, else the opening brace.
fn why_of(text: &[u8], told: PlaceholderTold, brace: TextPlace) -> TextPlace
    requires { told.to ≤ 65535 }
    ensures { result ≡ why_told text.now brace told }
{
    if !told.colon {
        return brace;
    }
    let at = told.to + 1;
    let spec = told.spec;
    if at == spec.fill {
        return brace;
    }
    if code_at(text, at) == 0x7D {
        return TextPlace(at);
    }
    brace
}

// What is said of the sign at a place.
fn hint_of(sign: SignHint, at: TextPlace) -> Hint
    ensures { result ≡ placed_hint sign at }
{
    match sign {
        SignHint::Silent => Hint::Silent,
        SignHint::Misplaced => Hint::Misplaced(at),
        SignHint::Comma => Hint::Comma(at),
        SignHint::Plus => Hint::PlusFirst(at),
        SignHint::Equals => Hint::Equals(at),
    }
}

// The records where a closing brace is missing: that it is, and what is said of the sign there.
fn put_missing(
    text: &[u8],
    frame: Frame,
    brace: usize,
    told: PlaceholderTold,
    errors: &mut [u32],
    extent: Extent,
) -> Extent
    requires { Small text.now frame × (told.to ≤ 65535) × Room (noted_by extent errors.old) (noticed extent.pieces (missing_told text.now brace told)) }
    ensures { Notes text.now frame extent errors.old (missing_told text.now brace told) result errors.new }
{
    let sign = told.hint;
    let opening = TextPlace(brace);
    let at = TextPlace(told.close);
    let why = why_of(text, told, opening);
    let gap = closing::recover::gap_at(text, at, why);
    let after = put_fault(text, frame, faults::of_gap(gap), &mut *errors, extent);
    let hint = hint_of(sign, at);
    if closing::recover::is_silent(hint) {
        return after;
    }
    put_fault(text, frame, faults::of_hint(opening, hint), errors, after)
}

// The records of what is wrong in what is told.
pub fn put_wrongs(
    text: &[u8],
    frame: Frame,
    brace: usize,
    told: PlaceholderTold,
    errors: &mut [u32],
    extent: Extent,
) -> Extent
    requires { Small text.now frame × (brace < 65535) × (told.to ≤ 65535) × Room (noted_by extent errors.old) (noticed extent.pieces (told_slots text.now brace told)) }
    ensures { Notes text.now frame extent errors.old (told_slots text.now brace told) result errors.new }
{
    if is_flawless(told) {
        return extent;
    }
    let high = put_blanks(
        text,
        frame,
        brace + 1,
        told,
        extent.pieces,
        &mut *errors,
        extent.high,
    );
    let after = Extent {
        pieces: extent.pieces,
        low: extent.low,
        high,
        fronts: extent.fronts,
    };
    if told.closed {
        return after;
    }
    put_missing(text, frame, brace, told, errors, after)
}
