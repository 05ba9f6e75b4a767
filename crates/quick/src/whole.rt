// A whole placeholder of Format mode, told by its parts, whatever is wrong in it: a word `_` is noted, and a closing brace that is missing. Nothing is written here: `told`
// writes what is told.
ghost use Rattle.std.specs.Prelude.{◌≡◌, true, false, ◌+◌, get_or, IfSome};
ghost use Rattle.quick.specs.Tellings.{Tells};
ghost use Rattle.quick.specs.PartsTold.{Room, hint_of, SpecKnown, SpecEither};

use crate::{
    PlaceholderTold, SignHint, SpecTold, any_precision, fill_end, given_back, hint_at, no_spec,
    onward, place, space_end, type_at, width, word_at,
};
use frame::TextPlace;

// The spec from after its colon.
fn tell_spec(text: &[u8], at: usize) -> Option<SpecTold>
    requires { Room text.now at }
    ensures { IfSome result (SpecKnown text.now at) }
{
    let fill = fill_end(text, at);
    let aligning = placeholder::format::read_align(text, TextPlace(fill));
    let align = aligning.align;
    let signing = placeholder::format::read_sign(text, aligning.at);
    let sign = signing.sign;
    let hash = scan::consume(text, signing.at, b'#');
    let flag = scan::consume(text, hash.at, b'0');
    let from = flag.at.0;
    let word = word_at(text, from);
    let wide = width(text, from, word.end)?;
    let precise = any_precision(text, wide.end)?;
    let precision = precise.part;
    let typed = type_at(text, precision.end, from, word.end)?;
    // A `0` with `$` is no flag.
    if flag.ate && utf8::byte(text, from) == b'$' {
        return None;
    }
    Some(SpecTold {
        fill,
        align,
        sign,
        alternate: hash.ate,
        zero: flag.ate,
        from,
        word: word.end,
        width: wide,
        precision,
        typed,
        given: given_back(text, from, word, wide) + precise.given,
    })
}

// The spec of a placeholder whose place ends at `to`: behind a colon, or none.
fn spec_from(text: &[u8], to: usize, colon: bool) -> Option<SpecTold>
    requires { Room text.now to × (colon ≡ true → get_or text.now to 0 ≡ 0x3A) }
    ensures { IfSome result (SpecEither text.now to colon) }
{
    if colon {
        return tell_spec(text, to + 1);
    }
    Some(no_spec(to))
}

// What is said of the sign where a placeholder ends. Most end at their closing brace, of which nothing is said.
fn hint_unless(text: &[u8], closed: bool, at: usize) -> SignHint
    requires { Room text.now at × (closed ≡ true → get_or text.now at 0 ≡ 0x7D) }
    ensures { result ≡ hint_of text.now at }
{
    if closed {
        return SignHint::Silent;
    }
    hint_at(utf8::whole(text), at)
}

// The placeholder whose place starts at `at`, after its opening brace.
pub fn tell(text: &[u8], at: usize) -> Option<PlaceholderTold>
    requires { Room text.now at }
    ensures { IfSome result (Tells text.now at) }
{
    let placed = place(text, at)?;
    let to = space_end(text, placed.end);
    let colon = utf8::byte(text, to) == b':';
    let spec = spec_from(text, to, colon)?;
    let close = space_end(text, spec.typed.end);
    let b = utf8::byte(text, close);
    // A `?` and a `.` there may begin more.
    if b == b'?' || b == b'.' {
        return None;
    }
    let closed = b == b'}';
    let hint = hint_unless(text, closed, close);
    Some(PlaceholderTold {
        place: placed,
        to,
        colon,
        spec,
        close,
        closed,
        hint,
        on: onward(closed, hint, close),
    })
}
