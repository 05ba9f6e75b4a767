// The parts of a placeholder of Format mode, told by kinds and plain numbers, with the faults that need no more than a look: a word `_`, and a closing brace
// that is missing. What they tell is what `closing` reads, and of what they do not tell (`None`) nothing is said: it is left to it. `whole` puts them together; `flawless` writes
// each part as soon as it is told.
#![tactic(auto)]

pub mod whole; // whole.rt: a placeholder by its parts, whatever is wrong in it
pub mod clear; // clear.rt: one that ends at its closing brace, for runs that write nothing

ghost use Rattle.std.specs.Prelude.{◌≡◌, true, false, ◌+◌, ◌≤◌, get_or, IfSome};
ghost use Rattle.frame.specs.Places.{place};
ghost use Rattle.utf8.specs.Chars.{run_end};
ghost use Rattle.letters.specs.Questions.{is_space};
ghost use Rattle.letters.specs.Ascii.{ascii_continue};
ghost use Rattle.scan.specs.Words.{is_digit, word_end};
ghost use Rattle.quick.specs.Tellings.{is_nothing, back_of};
ghost use Rattle.quick.specs.PartsTold.{Room, number_place, place_none, fixed_count, count_none, align_byte, sign_byte, ends_byte, blank_word, raw_word, sign_told, type_word, type_none, hint_of, onward_of, AsciiRun, WordKnown, NumberTold, PlaceTold, FillTold, CountGiven, WidthTold, PrecisionTold, TypeKnown, NoSpec};

use frame::TextPlace;
use placeholder::{Align, Hex, Sign};

// A number of at most four digits, and where it ends.
#[derive(Clone, Copy)]
pub struct NumberPart {
    pub value: u16,
    pub end: usize,
}

// What stands where the place of an argument may. `Nothing` is a case like the others: it takes the next argument.
#[derive(Clone, Copy)]
pub enum PlaceKind {
    Nothing,
    Number(u16),
    Word,
}

// The place of an argument. `blank`: the word `_` stands there, which is a fault.
#[derive(Clone, Copy)]
pub struct PlacePart {
    pub kind: PlaceKind,
    pub end: usize,
    pub blank: bool,
}

// What stands where a width or a precision may: a number, an argument's number or a name with its `$`, a star, or a dot with no count behind it. `Nothing` is a case like the others: it wants no argument.
#[derive(Clone, Copy)]
pub enum CountKind {
    Nothing,
    Number(u16),
    Argument(u16),
    Star,
    Name,
    Dot,
}

// A width or a precision. `blank`: the word `_` stands there, which is a fault.
#[derive(Clone, Copy)]
pub struct CountPart {
    pub kind: CountKind,
    pub end: usize,
    pub blank: bool,
}

// A precision, and how many characters were read for it and given back.
#[derive(Clone, Copy)]
pub struct PreciseTold {
    pub part: CountPart,
    pub given: usize,
}

// A word: where it ends, and whether it is known to be ASCII, a character each byte.
#[derive(Clone, Copy)]
pub struct WordTold {
    pub end: usize,
    pub ascii: bool,
}

// A type: where its text starts and ends, and whether it is a word, and the word `_`. The text of `x?` and `X?` is the `?`, and what stands before it
// is `hex`.
#[derive(Clone, Copy)]
pub struct TypeTold {
    pub hex: Hex,
    pub word: bool,
    pub blank: bool,
    pub from: usize,
    pub end: usize,
}

// The spec after a colon: the place after its fill (that of the colon's end where there is none), its marks, where its width starts and the word
// there ends, its other parts, and how many characters were read for a width or a precision and given back.
#[derive(Clone, Copy)]
pub struct SpecTold {
    pub fill: usize,
    pub align: Align,
    pub sign: Sign,
    pub alternate: bool,
    pub zero: bool,
    pub from: usize,
    pub word: usize,
    pub width: CountPart,
    pub precision: CountPart,
    pub typed: TypeTold,
    pub given: usize,
}

// What is said of a sign where a closing brace was expected. `Silent` is a case like the others: reading goes on after each.
#[derive(Clone, Copy)]
pub enum SignHint {
    Silent,
    Misplaced,
    Comma,
    Plus,
    Equals,
}

// A placeholder: its place, where the place ends with the whitespace after it, the spec if a colon stands there, where its closing brace stands or is
// missing, and where reading goes on.
#[derive(Clone, Copy)]
pub struct PlaceholderTold {
    pub place: PlacePart,
    pub to: usize,
    pub colon: bool,
    pub spec: SpecTold,
    pub close: usize,
    pub closed: bool,
    pub hint: SignHint,
    pub on: usize,
}

// Where the whitespace from `at` ends: in place where none stands there, else by a call.
pub fn space_end(text: &[u8], at: usize) -> usize
    ensures { result ≡ run_end is_space text.now at }
{
    let b = utf8::byte(text, at);
    if 0x20 < b {
        if b < 0x80 {
            return at;
        }
    }
    letters::space_end(utf8::whole(text), at)
}

#[tactic(auto, unfolding(scan::specs::Words::is_digit, utf8::specs::Choice::within))]
pub fn is_digit(b: u8) -> bool
    ensures { result ≡ is_digit b }
{
    matches!(b, b'0'..=b'9')
}

// The number at a place, of at most four digits.
pub fn number(text: &[u8], at: usize) -> Option<NumberPart>
    requires { Room text.now at × (is_digit (get_or text.now at 0) ≡ true) }
    ensures { IfSome result (NumberTold text.now at) }
{
    let mut value = 0;
    for i in at..at + 4 {
        let b = utf8::byte(text, i);
        if !is_digit(b) {
            return Some(NumberPart { value, end: i });
        }
        value = value * 10 + (b - 0x30) as u16;
    }
    let end = at + 4;
    if is_digit(utf8::byte(text, end)) {
        return None;
    }
    Some(NumberPart { value, end })
}

// A place that is a number.
pub fn number_place(number: NumberPart) -> PlacePart
    ensures { result ≡ number_place number }
{
    PlacePart {
        kind: PlaceKind::Number(number.value),
        end: number.end,
        blank: false,
    }
}

// No place.
pub fn no_place(at: usize) -> PlacePart
    ensures { result ≡ place_none at }
{
    PlacePart {
        kind: PlaceKind::Nothing,
        end: at,
        blank: false,
    }
}

// A count in which nothing is wrong.
fn plain(kind: CountKind, end: usize) -> CountPart
    ensures { result ≡ record { kind = kind; end = end; blank = false } }
{
    CountPart {
        kind,
        end,
        blank: false,
    }
}

// A count that is a number.
pub fn fixed_count(number: NumberPart) -> CountPart
    ensures { result ≡ fixed_count number }
{
    plain(CountKind::Number(number.value), number.end)
}

// No count.
pub fn no_count(at: usize) -> CountPart
    ensures { result ≡ count_none at }
{
    plain(CountKind::Nothing, at)
}

// Whether there is none, and no dot.
fn is_nothing(kind: CountKind) -> bool
    ensures { result ≡ is_nothing kind }
{
    matches!(kind, CountKind::Nothing)
}

// Whether a byte is an ASCII letter, `_` or a digit. Letters come first: they are the most.
fn continues(b: u8) -> bool
    ensures { result ≡ ascii_continue b }
{
    if letters::ascii_start(b) {
        return true;
    }
    is_digit(b)
}

// The place after the ASCII continuations at `at`.
fn ascii_end(text: &[u8], at: usize) -> usize
    ensures { AsciiRun text.now at result }
{
    for i in at..text.len() {
        if !continues(text[i]) {
            return i;
        }
    }
    at.max(text.len())
}

// The word at a place. One in ASCII is passed here, and only one with other letters takes a call, which goes on from there: so this is small enough to
// stand in its callers.
pub fn word_at(text: &[u8], at: usize) -> WordTold
    requires { Room text.now at }
    ensures { WordKnown text.now at result }
{
    let b = utf8::byte(text, at);
    let mut known = at;
    if b < 0x80 {
        if !letters::ascii_start(b) {
            return WordTold {
                end: at,
                ascii: true,
            };
        }
        known = ascii_end(text, at + 1);
        if utf8::byte(text, known) < 0x80 {
            return WordTold {
                end: known,
                ascii: true,
            };
        }
    }
    let end = scan::word_from(utf8::whole(text), TextPlace(at), known);
    WordTold {
        end: end.0,
        ascii: false,
    }
}

// Where the word at a place ends.
pub fn word_end(text: &[u8], at: usize) -> usize
    requires { Room text.now at }
    ensures { result ≡ (word_end text.now (place at)).0 }
{
    let word = word_at(text, at);
    word.end
}

// How many characters of the word at `from` are given back: all of them, where it was read for a count and is none.
pub fn given_back(text: &[u8], from: usize, word: WordTold, width: CountPart) -> usize
    requires { WordKnown text.now from word }
    ensures { result ≡ back_of text.now from word.end width }
{
    if !is_nothing(width.kind) {
        return 0;
    }
    if word.ascii {
        return word.end - from;
    }
    utf8::chars_between(utf8::whole(text), from, word.end)
}

// The place of an argument. `r` with a `#` after it is not told.
pub fn place(text: &[u8], at: usize) -> Option<PlacePart>
    requires { Room text.now at }
    ensures { IfSome result (PlaceTold text.now at) }
{
    let b = utf8::byte(text, at);
    if is_digit(b) {
        return Some(number_place(number(text, at)?));
    }
    let end = word_end(text, at);
    if end == at {
        return Some(no_place(at));
    }
    if is_raw(text, b, at, end) {
        return None;
    }
    Some(PlacePart {
        kind: PlaceKind::Word,
        end,
        blank: is_blank(b, at, end),
    })
}

// Whether a word, whose first byte is given, is `r` with a `#` after it, as a raw name begins.
pub fn is_raw(text: &[u8], b: u8, at: usize, end: usize) -> bool
    requires { at ≤ 65535 }
    ensures { result ≡ raw_word text.now b at end }
{
    if b != b'r' {
        return false;
    }
    if end != at + 1 {
        return false;
    }
    utf8::byte(text, end) == b'#'
}

// Whether a word, whose first byte is given, is `_`.
fn is_blank(b: u8, at: usize, end: usize) -> bool
    requires { at ≤ 65535 }
    ensures { result ≡ blank_word b at end }
{
    if b == b'_' { end == at + 1 } else { false }
}

fn is_align(b: u8) -> bool
    ensures { result ≡ align_byte b }
{
    if b == b'<' {
        return true;
    }
    if b == b'>' {
        return true;
    }
    b == b'^'
}

// The place after the fill, or the same place where there is none. A fill in ASCII is looked at here, another takes a call.
pub fn fill_end(text: &[u8], at: usize) -> usize
    requires { Room text.now at }
    ensures { FillTold text.now at result }
{
    if text.len() <= at {
        return at;
    }
    if text[at] < 0x80 {
        if is_align(utf8::byte(text, at + 1)) {
            return at + 1;
        }
        return at;
    }
    wide_fill(utf8::whole(text), at)
}

// The same for a fill that is any character.
fn wide_fill(text: &[u8], at: usize) -> usize
    requires { Room text.now at }
    ensures { FillTold text.now at result }
{
    match utf8::peek(text, at) {
        Some(seen) => {
            if is_align(utf8::byte(text, at + seen.width)) {
                return at + seen.width;
            }
            at
        }
        None => at,
    }
}

// A count that begins with a digit.
fn count(text: &[u8], at: usize) -> Option<CountPart>
    requires { Room text.now at × (is_digit (get_or text.now at 0) ≡ true) }
    ensures { IfSome result (CountGiven text.now at) }
{
    let read = number(text, at)?;
    if utf8::byte(text, read.end) == b'$' {
        return Some(plain(CountKind::Argument(read.value), read.end + 1));
    }
    Some(fixed_count(read))
}

// The width. `word` is where the word at `at` ends: with `$` it is a name, without it is left for the type.
pub fn width(text: &[u8], at: usize, word: usize) -> Option<CountPart>
    requires { Room text.now at × (word ≡ (word_end text.now (place at)).0) }
    ensures { IfSome result (WidthTold text.now at word) }
{
    let b = utf8::byte(text, at);
    if is_digit(b) {
        return count(text, at);
    }
    let blank = is_blank(b, at, word);
    if at < word && utf8::byte(text, word) == b'$' {
        return Some(CountPart {
            kind: CountKind::Name,
            end: word + 1,
            blank,
        });
    }
    Some(CountPart {
        kind: CountKind::Nothing,
        end: at,
        blank,
    })
}

// The precision with its dot: a star or a number; any other is not told, so that this stays small.
pub fn precision(text: &[u8], at: usize) -> Option<CountPart>
    requires { Room text.now at }
    ensures { IfSome result (PrecisionTold text.now at 0) }
{
    if utf8::byte(text, at) != b'.' {
        return Some(no_count(at));
    }
    let b = utf8::byte(text, at + 1);
    if b == b'*' {
        return Some(plain(CountKind::Star, at + 2));
    }
    if is_digit(b) {
        return count(text, at + 1);
    }
    None
}

// Any precision that is told: a star, what a width may be, or a dot alone. A word without `$` behind the dot is read and given back; the word `_` is not told.
pub fn any_precision(text: &[u8], at: usize) -> Option<PreciseTold>
    requires { Room text.now at }
    ensures { IfSome result (λ p. PrecisionTold text.now at p.given p.part) }
{
    if utf8::byte(text, at) != b'.' {
        return Some(kept(no_count(at)));
    }
    let from = at + 1;
    if utf8::byte(text, from) == b'*' {
        return Some(kept(plain(CountKind::Star, at + 2)));
    }
    let word = word_at(text, from);
    let count = width(text, from, word.end)?;
    if count.blank {
        return None;
    }
    if !is_nothing(count.kind) {
        return Some(kept(count));
    }
    Some(PreciseTold {
        part: plain(CountKind::Dot, count.end),
        given: given_back(text, from, word, count),
    })
}

// A precision of which nothing was given back.
fn kept(part: CountPart) -> PreciseTold
    ensures { result ≡ record { part = part; given = 0 } }
{
    PreciseTold { part, given: 0 }
}

// A sign of a type, `?`, `x` or `X`: alone it is told.
pub fn sign_type(text: &[u8], at: usize) -> Option<TypeTold>
    requires { Room text.now (at + 1) }
    ensures { result ≡ sign_told text.now at }
{
    if !ends_spec(utf8::byte(text, at + 1)) {
        return None;
    }
    Some(TypeTold {
        hex: Hex::Absent,
        word: false,
        blank: false,
        from: at,
        end: at + 1,
    })
}

// The same, or an `x` or `X` with the `?` after it; the sign is given.
fn any_sign_type(text: &[u8], b: u8, at: usize) -> Option<TypeTold>
    requires { Room text.now (at + 1) × (b ≡ get_or text.now at 0) × (sign_byte b ≡ true) }
    ensures { IfSome result (TypeKnown text.now at) }
{
    if b == b'?' {
        return sign_type(text, at);
    }
    if utf8::byte(text, at + 1) != b'?' {
        return sign_type(text, at);
    }
    Some(TypeTold {
        hex: if b == b'x' { Hex::Lower } else { Hex::Upper },
        word: false,
        blank: false,
        from: at + 1,
        end: at + 2,
    })
}

// Where no type stands.
pub fn no_type(at: usize) -> TypeTold
    ensures { result ≡ type_none at }
{
    TypeTold {
        hex: Hex::Absent,
        word: false,
        blank: false,
        from: at,
        end: at,
    }
}

// Whether a byte is a sign of a type.
pub fn is_type_sign(b: u8) -> bool
    ensures { result ≡ sign_byte b }
{
    if b == b'?' {
        return true;
    }
    if b == b'x' {
        return true;
    }
    b == b'X'
}

// A type that is the word from `at` to `end`, whose first byte is given; none where they are the same.
pub fn word_type(b: u8, at: usize, end: usize) -> TypeTold
    requires { at ≤ 65535 }
    ensures { result ≡ type_word b at end }
{
    TypeTold {
        hex: Hex::Absent,
        word: at < end,
        blank: is_blank(b, at, end),
        from: at,
        end,
    }
}

// Whether a byte can only end a spec: a `}` or a space.
fn ends_spec(b: u8) -> bool
    ensures { result ≡ ends_byte b }
{
    if b == b'}' {
        return true;
    }
    b == b' '
}

// The type. The word at `from` ends at `word`, and is not looked for again.
pub fn type_at(text: &[u8], at: usize, from: usize, word: usize) -> Option<TypeTold>
    requires { Room text.now at × (word ≡ (word_end text.now (place from)).0) }
    ensures { IfSome result (TypeKnown text.now at) }
{
    let b = utf8::byte(text, at);
    if is_type_sign(b) {
        return any_sign_type(text, b, at);
    }
    let end = if at == from { word } else { word_end(text, at) };
    Some(word_type(b, at, end))
}

// Where no spec stands.
pub fn no_spec(at: usize) -> SpecTold
    ensures { NoSpec at result }
{
    SpecTold {
        fill: at,
        align: Align::Unknown,
        sign: Sign::Absent,
        alternate: false,
        zero: false,
        from: at,
        word: at,
        width: no_count(at),
        precision: no_count(at),
        typed: no_type(at),
        given: 0,
    }
}

// What is said of the sign at a place where a closing brace was expected, if two characters remain.
pub fn hint_at(text: &[u8], at: usize) -> SignHint
    requires { Room text.now at }
    ensures { result ≡ hint_of text.now at }
{
    let b = utf8::byte(text, at);
    // Most placeholders are closed.
    if b == b'}' {
        return SignHint::Silent;
    }
    if text.len() <= at + 1 {
        return SignHint::Silent;
    }
    if is_align(b) {
        return SignHint::Misplaced;
    }
    if b == b',' {
        return SignHint::Comma;
    }
    if b == b'+' {
        return SignHint::Plus;
    }
    if b == b'=' {
        if utf8::byte(text, at + 1) == b'}' {
            return SignHint::Equals;
        }
    }
    SignHint::Silent
}

// Where reading goes on: after the closing brace, or after a sign of which something is said.
pub fn onward(closed: bool, hint: SignHint, close: usize) -> usize
    requires { close ≤ 65535 }
    ensures { result ≡ onward_of closed hint close }
{
    if closed {
        return close + 1;
    }
    match hint {
        SignHint::Silent => close,
        SignHint::Misplaced => close + 1,
        SignHint::Comma => close + 1,
        SignHint::Plus => close + 1,
        SignHint::Equals => close + 1,
    }
}
