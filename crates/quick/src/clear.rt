// A placeholder that ends at its closing brace, told by its parts, for runs that write nothing. Its place and its spec are read here, though `place` and `whole` read them, too: called from two
// places they become calls where the lane stops (docs/SPEED.md, 'The rule for hot paths').
ghost use Rattle.std.specs.Prelude.{◌≡◌, true, false, ◌+◌, get_or, IfSome};
ghost use Rattle.quick.specs.Tellings.{Tells};
ghost use Rattle.quick.specs.PartsTold.{Room, PlaceTold, SpecKnown, SpecEither};

use crate::{
    PlaceKind, PlacePart, PlaceholderTold, SignHint, SpecTold, fill_end, given_back, is_blank,
    is_digit, is_raw, no_place, no_spec, number, number_place, precision, space_end, type_at,
    width, word_at, word_end,
};
use frame::TextPlace;

// The place of an argument: a number, a word that is neither `_` nor begins a raw name, or nothing.
fn clear_place(text: &[u8], at: usize) -> Option<PlacePart>
    requires { Room text.now at }
    ensures { IfSome result (PlaceTold text.now at) }
{
    let b = utf8::byte(text, at);
    if is_digit(b) {
        return Some(number_place(number(text, at)?));
    }
    let end = word_end(text, at);
    if end == at {
        return Some(no_place(at));
    }
    if is_raw(text, b, at, end) || is_blank(b, at, end) {
        return None;
    }
    Some(PlacePart {
        kind: PlaceKind::Word,
        end,
        blank: false,
    })
}

// The spec from after its colon.
fn clear_spec(text: &[u8], at: usize) -> Option<SpecTold>
    requires { Room text.now at }
    ensures { IfSome result (SpecKnown text.now at) }
{
    let fill = fill_end(text, at);
    let aligning = placeholder::format::read_align(text, TextPlace(fill));
    let align = aligning.align;
    let signing = placeholder::format::read_sign(text, aligning.at);
    let sign = signing.sign;
    let hash = scan::consume(text, signing.at, b'#');
    let flag = scan::consume(text, hash.at, b'0');
    let from = flag.at.0;
    let word = word_at(text, from);
    let wide = width(text, from, word.end)?;
    let precise = precision(text, wide.end)?;
    let typed = type_at(text, precise.end, from, word.end)?;
    // A `0` with `$` is no flag.
    if flag.ate && utf8::byte(text, from) == b'$' {
        return None;
    }
    Some(SpecTold {
        fill,
        align,
        sign,
        alternate: hash.ate,
        zero: flag.ate,
        from,
        word: word.end,
        width: wide,
        precision: precise,
        typed,
        given: given_back(text, from, word, wide),
    })
}

// The spec of a placeholder whose place ends at `to`: behind a colon, or none.
fn clear_spec_from(text: &[u8], to: usize, colon: bool) -> Option<SpecTold>
    requires { Room text.now to × (colon ≡ true → get_or text.now to 0 ≡ 0x3A) }
    ensures { IfSome result (SpecEither text.now to colon) }
{
    if colon {
        return clear_spec(text, to + 1);
    }
    Some(no_spec(to))
}

// The byte that closes a placeholder.
const CLOSING: u8 = b'}';

// The placeholder whose place starts at `at`, after its opening brace.
pub fn tell_closed(text: &[u8], at: usize) -> Option<PlaceholderTold>
    requires { Room text.now at }
    ensures { IfSome result (Tells text.now at) }
{
    let placed = clear_place(text, at)?;
    let to = space_end(text, placed.end);
    let colon = utf8::byte(text, to) == b':';
    let spec = clear_spec_from(text, to, colon)?;
    let close = space_end(text, spec.typed.end);
    if utf8::byte(text, close) != CLOSING {
        return None;
    }
    Some(PlaceholderTold {
        place: placed,
        to,
        colon,
        spec,
        close,
        closed: true,
        hint: SignHint::Silent,
        on: close + 1,
    })
}
