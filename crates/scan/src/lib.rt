// The leaves of the reader, each at a place of the text: a character, whitespace, a word, a number, a count, a run of literal text.
#![tactic(auto)]

ghost use Rattle.std.specs.Prelude.{◌≡◌, ℕ, ◌+◌, ◌*◌, ◌<◌, ◌≤◌, true, length};
ghost use Rattle.frame.specs.Bounds.{Small};
ghost use Rattle.utf8.specs.Chars.{run_end};
ghost use Rattle.utf8.specs.Blocks.{one, how_many};
ghost use Rattle.scan.specs.Characters.{is_at, past_at, consumed, spaces_past, is_plain, text_end};
ghost use Rattle.scan.specs.Ends.{end_of, span_across};
ghost use Rattle.scan.specs.Words.{is_digit, word_end, word_from, word_read, number_from, number_read};
ghost use Rattle.scan.specs.Wrapping.{noted, told};
ghost use Rattle.scan.specs.Counts.{is_empty, number_count, name_count, count_read};

use frame::{Frame, SnippetPlace, Span, TextPlace, TextRange};

// What a leaf of the reader found wrong, with the bytes that its record is made from.
#[derive(Clone, Copy)]
pub enum Flaw {
    // Nothing is wrong: a case like the others, so that what a leaf found is told by one match.
    Clean,
    // 4: an `r#` name, its prefix included.
    RawName(TextRange),
    // 5: the `?` before a `#`, `x` or `X`.
    AfterDebug(TextPlace),
    // 6: the word `_`.
    Underscore(TextRange),
    // 7: the digits of a number above 65,535.
    TooLarge(TextRange),
}

// Whether a character was there and was passed, and where reading stands. No Option: where nothing is passed, reading goes on at `at` all the same, as behind a `#` that may be there.
#[derive(Clone, Copy)]
pub struct Consumed {
    pub ate: bool,
    pub at: TextPlace,
}

// A word, empty where none stands.
#[derive(Clone, Copy)]
pub struct WordRead {
    pub word: TextRange,
    pub flaw: Flaw,
}

// A number modulo 65,536, and whether it is above 65,535. Only the reading of digits carries it. No Option: the remainder is carried on where the number is above, too.
#[derive(Clone, Copy)]
pub struct Noted {
    pub value: u16,
    pub over: bool,
}

// A number that is written: itself, or over range where it is above 65,535. No Option: `At(Over)` says what `At(None)` would not.
#[derive(Clone, Copy)]
pub enum Numeral {
    Within(u16),
    Over,
}

#[derive(Clone, Copy)]
pub struct NumberRead {
    pub number: Option<Numeral>,
    pub digits: TextRange,
    pub flaw: Flaw,
}

// A width or a precision.
#[derive(Clone, Copy)]
pub enum Count {
    Implied,
    Fixed(Numeral),
    ByName(TextRange, Span),
    ByArgument(Numeral),
    ByStar(usize),
}

// `given`: how many characters were read for it and given back.
#[derive(Clone, Copy)]
pub struct CountRead {
    pub count: Count,
    pub at: TextPlace,
    pub flaw: Flaw,
    pub given: usize,
}

// Whether the character at a place is the ASCII character `c`. No other character has a byte below 80 (hex), so one byte tells.
pub fn peek_is(text: &[u8], at: TextPlace, c: u8) -> bool
    requires { c < 0x80 }
    ensures { result ≡ is_at text.now at c }
{
    let i = at.0;
    i < text.len() && text[i] == c
}

// Passes the ASCII character `c` if it stands at the place.
pub fn consume(text: &[u8], at: TextPlace, c: u8) -> Consumed
    requires { c < 0x80 }
    ensures { result ≡ consumed text.now at c }
{
    let i = at.0;
    if i < text.len() && text[i] == c {
        return Consumed {
            ate: true,
            at: TextPlace(i + 1),
        };
    }
    Consumed { ate: false, at }
}

// The place after the character at a place; the end stays where it is.
pub fn past(text: &[u8], at: TextPlace) -> TextPlace
    ensures { result ≡ past_at text.now at }
{
    let i = at.0;
    match utf8::peek(text, i) {
        Some(seen) => TextPlace(i + seen.width),
        None => at,
    }
}

// The place after the whitespace at a place.
pub fn ws(text: &[u8], at: TextPlace) -> TextPlace
    ensures { result ≡ spaces_past text.now at }
{
    let i = at.0;
    TextPlace(letters::space_end(text, i))
}

// The end of the literal text at a place: the next brace, or the end of the text. No byte of a longer character is a brace, so
// bytes tell.
pub fn string_end(text: &[u8], at: TextPlace) -> TextPlace
    ensures { result ≡ text_end text.now at }
{
    let i = at.0;
    // From here on `i` is within the text, so no sum of a block's place wraps.
    if text.len() <= i {
        return at;
    }
    // Most literals between placeholders are short: blocks are tried from the sixteenth byte on.
    let near = brace_before(text, after_eight(text, i), i + 16);
    if near < i + 16 {
        return TextPlace(near);
    }
    let from = plain_blocks(text, near);
    TextPlace(brace_before(text, from, text.len() + 1))
}

// The place after eight bytes without a brace at `at`; the same place where one is among them, or fewer are left.
fn after_eight(text: &[u8], at: usize) -> usize
    requires { at ≤ length text.now }
    ensures { (run_end is_plain text.now result ≡ run_end is_plain text.now at) × (result ≤ length text.now) }
{
    if at + 8 <= text.len() && plains(text, at) == 8 {
        return at + 8;
    }
    at
}

// The place after the blocks of 32 bytes without a brace at `at`. A block is one test.
fn plain_blocks(text: &[u8], at: usize) -> usize
    requires { at ≤ length text.now }
    ensures { (run_end is_plain text.now result ≡ run_end is_plain text.now at) × (result ≤ length text.now) }
{
    let mut i = at;
    // `while`: what is answered is the place, of which a run of blocks as slices would give only the number.
    while i + 32 <= text.len() {
        if !is_plain(text, i) {
            return i;
        }
        i += 32;
    }
    i
}

// The place of the first brace from `at` on, or the end, if it is before `limit`; else a place up to which there is none.
pub fn brace_before(text: &[u8], at: usize, limit: usize) -> usize
    requires { at ≤ length text.now }
    ensures same_end { (run_end is_plain text.now result ≡ run_end is_plain text.now at) × (result ≤ length text.now) }
    ensures found { result < limit → result ≡ run_end is_plain text.now at }
{
    let stop = limit.min(text.len());
    for i in at..stop {
        if plain(text[i]) == 0 {
            return i;
        }
    }
    at.max(stop)
}

// Whether the 32 bytes at `at` have no brace. The others are counted, and the count compared with 32: that becomes one test of vectors.
fn is_plain(text: &[u8], at: usize) -> bool
    requires { at + 32 ≤ length text.now }
    ensures { result ≡ true → how_many is_plain text.now at 32 ≡ 32 }
{
    plains(text, at) + plains(text, at + 8) + plains(text, at + 16) + plains(text, at + 24) == 32
}

// How many of the eight bytes at `at` are no braces.
fn plains(text: &[u8], at: usize) -> u8
    requires { at + 8 ≤ length text.now }
    ensures { (result ≡ how_many is_plain text.now at 8) × (result ≤ 8) }
{
    plain(text[at])
        + plain(text[at + 1])
        + plain(text[at + 2])
        + plain(text[at + 3])
        + plain(text[at + 4])
        + plain(text[at + 5])
        + plain(text[at + 6])
        + plain(text[at + 7])
}

// 0 for a brace, else 1: a number, so that many of them are summed at once.
pub fn plain(b: u8) -> u8
    ensures { (result ≡ one (is_plain b)) × (result ≤ 1) }
{
    // Two tests, one after the other: as one joined test, made a number by `u8::from`, literals took 1.2 to 1.6 times as long.
    if b == b'{' {
        return 0;
    }
    if b == b'}' {
        return 0;
    }
    1
}

// The snippet place where the character at a text place ends.
pub fn end_of(text: &[u8], frame: Frame, at: TextPlace) -> SnippetPlace
    requires { Small text.now frame }
    ensures { result ≡ end_of text.now frame at }
{
    let i = at.0;
    match utf8::peek(text, i) {
        Some(seen) => {
            let end = TextPlace(i + seen.width);
            frame::to_snippet(frame, end)
        }
        None => frame.end,
    }
}

// From the start of one character to the end of another.
pub fn span_across(text: &[u8], frame: Frame, first: TextPlace, last: TextPlace) -> Span
    requires { Small text.now frame }
    ensures { result ≡ span_across text.now frame first last }
{
    let start = frame::start_of(text, frame, first);
    let end = end_of(text, frame, last);
    Span { start, end }
}

// The first byte that is no ASCII character.
const BEYOND_ASCII: u8 = 0x80;

// Where the word at a place ends. One in ASCII is passed by its bytes; one with other letters goes on from there.
pub fn word_end(text: &[u8], at: TextPlace) -> TextPlace
    ensures { result ≡ word_end text.now at }
{
    let i = at.0;
    let b = utf8::byte(text, i);
    if 0x80 <= b {
        return word_from(text, at, i);
    }
    if !letters::ascii_start(b) {
        return at;
    }
    let end = letters::ascii_continue_end(text, i + 1);
    if BEYOND_ASCII <= utf8::byte(text, end) {
        return word_from(text, at, end);
    }
    TextPlace(end)
}

// The same, where the characters before `known` were passed; where that is not past the place, none were. So a caller that passed some need not begin anew.
pub fn word_from(text: &[u8], at: TextPlace, known: usize) -> TextPlace
    ensures { result ≡ word_from text.now at known }
{
    let i = at.0;
    if i < known {
        return TextPlace(letters::continue_end(text, known));
    }
    match utf8::peek(text, i) {
        Some(seen) => {
            if letters::is_start(seen.code) {
                return TextPlace(letters::continue_end(text, i + seen.width));
            }
            at
        }
        None => at,
    }
}

// The word at a place: one start, then continuations as far as they go. The word `_` is a flaw.
pub fn word(text: &[u8], at: TextPlace) -> WordRead
    ensures { result ≡ word_read text.now at }
{
    let end = word_end(text, at);
    let word = TextRange { start: at, end };
    if peek_is(text, at, b'_') && end.0 == at.0 + 1 {
        return WordRead {
            word,
            flaw: Flaw::Underscore(word),
        };
    }
    WordRead {
        word,
        flaw: Flaw::Clean,
    }
}

// A sum that wraps on purpose, with the overflow noted beside it.
fn add_noted(a: u16, b: u16) -> Noted
    ensures { result ≡ noted (a + b) }
{
    let sum = std::num::wrapping_add_u16(a, b);
    Noted {
        value: sum,
        over: sum < a,
    }
}

// Ten times x, from sums that wrap: 2x, 4x, 5x, 10x.
fn times_ten(x: u16) -> Noted
    ensures { result ≡ noted (x * 10) }
{
    let two = add_noted(x, x);
    let four = add_noted(two.value, two.value);
    let five = add_noted(four.value, x);
    let ten = add_noted(five.value, five.value);
    Noted {
        value: ten.value,
        over: two.over | four.over | five.over | ten.over,
    }
}

// The number n with the digit d after it. An overflow that was noted stays noted.
fn then_digit(n: Noted, d: u16) -> Noted
    requires { d < 10 }
    ensures { (m : ℕ) → n ≡ noted m → result ≡ noted (m * 10 + d) }
{
    let tens = times_ten(n.value);
    let sum = add_noted(tens.value, d);
    Noted {
        value: sum.value,
        over: n.over | tens.over | sum.over,
    }
}

#[tactic(auto, unfolding(crate::specs::Words::is_digit, utf8::specs::Choice::within))]
fn is_digit(code: u32) -> bool
    ensures { result ≡ is_digit code }
{
    matches!(code, 0x30..=0x39)
}

// The digits at a place as a number; above 65,535 it is over range, and a flaw.
pub fn integer(text: &[u8], at: TextPlace) -> NumberRead
    ensures { result ≡ number_read text.now at }
{
    let mut kept = Noted {
        value: 0,
        over: false,
    };
    let mut i = at.0;
    while let Some(seen) = utf8::peek(text, i) {
        if !is_digit(seen.code) {
            return number_of(kept, at, TextPlace(i));
        }
        kept = then_digit(kept, (seen.code - 0x30) as u16);
        i += seen.width;
    }
    number_of(kept, at, TextPlace(i))
}

// What digits between two places come to, with the number that they spell. Where it wrapped, its remainder is dropped.
fn number_of(kept: Noted, at: TextPlace, end: TextPlace) -> NumberRead
    ensures { result ≡ number_from (told kept) at end }
{
    let digits = TextRange { start: at, end };
    if at.0 == end.0 {
        return NumberRead {
            number: None,
            digits,
            flaw: Flaw::Clean,
        };
    }
    if kept.over {
        return NumberRead {
            number: Some(Numeral::Over),
            digits,
            flaw: Flaw::TooLarge(digits),
        };
    }
    NumberRead {
        number: Some(Numeral::Within(kept.value)),
        digits,
        flaw: Flaw::Clean,
    }
}

// Whether a range holds nothing.
pub fn is_empty(range: TextRange) -> bool
    ensures { result ≡ is_empty range }
{
    range.start.0 == range.end.0
}

// A count that began with a number: `$` after it makes it an argument's, over range or not.
fn number_count(text: &[u8], value: Numeral, at: TextPlace, flaw: Flaw) -> CountRead
    ensures { result ≡ number_count text.now value at flaw }
{
    let dollar = consume(text, at, b'$');
    let end = dollar.at;
    if dollar.ate {
        return CountRead {
            count: Count::ByArgument(value),
            at: end,
            flaw,
            given: 0,
        };
    }
    CountRead {
        count: Count::Fixed(value),
        at,
        flaw,
        given: 0,
    }
}

// A count that is a word with `$` after it. A word without one is given back, and its flaw is kept.
fn name_count(text: &[u8], frame: Frame, at: TextPlace) -> CountRead
    requires { Small text.now frame }
    ensures { result ≡ name_count text.now frame at }
{
    let read = word(text, at);
    let name = read.word;
    let flaw = read.flaw;
    let end = name.end;
    if is_empty(name) {
        return CountRead {
            count: Count::Implied,
            at,
            flaw,
            given: 0,
        };
    }
    let dollar = consume(text, end, b'$');
    let past = dollar.at;
    if dollar.ate {
        let span = frame::span_between(text, frame, at, end);
        return CountRead {
            count: Count::ByName(name, span),
            at: past,
            flaw,
            given: 0,
        };
    }
    CountRead {
        count: Count::Implied,
        at,
        flaw,
        given: utf8::chars_between(text, at.0, end.0),
    }
}

// The count at a place: a number, number`$`, word`$`, or nothing.
pub fn count_at(text: &[u8], frame: Frame, at: TextPlace) -> CountRead
    requires { Small text.now frame }
    ensures { result ≡ count_read text.now frame at }
{
    let read = integer(text, at);
    let number = read.number;
    let digits = read.digits;
    let flaw = read.flaw;
    let end = digits.end;
    match number {
        Some(value) => number_count(text, value, end, flaw),
        None => name_count(text, frame, at),
    }
}
