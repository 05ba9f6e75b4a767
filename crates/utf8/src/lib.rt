// UTF-8 at any place of any bytes: the character there, the check of a text, which goes on from where it stood, and how many characters stand between two places.
#![tactic(auto)]

ghost use Rattle.std.specs.Prelude.{◌≡◌, true, ℕ, ◌+◌, ◌-◌, ◌≤◌, ◌<◌, length, get_or, drop};
ghost use Rattle.utf8.specs.Choice.{within};
ghost use Rattle.utf8.specs.Utf8.{low, high, code2, code3, code4, sequence_of, sequence_at, char_of, peek_at, valid_prefix};
ghost use Rattle.utf8.specs.Utf8Laws.{valid_end};
ghost use Rattle.utf8.specs.Chars.{chars_of, CheckedAs};
ghost use Rattle.utf8.specs.CountLaws.{Passed};
ghost use Rattle.utf8.specs.Blocks.{one, how_many, is_high, is_low, AsciiTo};

// A character, by its code, with its width in bytes.
#[derive(Clone, Copy)]
pub struct Char {
    pub code: u32,
    pub width: usize,
}

// A well-formed sequence: the code that it spells and its width in bytes. Width 0: none; no Option, since the definition of table 3-7 answers this record (`sequence_of`).
#[derive(Clone, Copy)]
pub struct Sequence {
    pub code: u32,
    pub width: usize,
}

// How far a check came: the place up to which the bytes are UTF-8, and how many characters it passed.
#[derive(Clone, Copy)]
pub struct Checked {
    pub valid: usize,
    pub chars: usize,
}

// The character at `at`, and none past the end. Bytes that are not UTF-8 are U+FFFD, one byte wide.
#[tactic(auto, using(crate::specs::CharLaws::past_end, crate::specs::CharLaws::ascii_char, crate::specs::DecodeLaws::decode_sequence), unfolding(crate::specs::Utf8::peek_at))]
pub fn peek(text: &[u8], at: usize) -> Option<Char>
    ensures { result ≡ peek_at text.now at }
{
    let first = *text.get(at)?;
    if first < 0x80 {
        return Some(Char {
            code: u32::from(first),
            width: 1,
        });
    }
    char_of(sequence_at(whole(text), at))
}

// The same text, lent anew. A slice is lent by the place where its two numbers lie: lent on as it is, they are copied at once, which waits until both are written; lent
// anew, they are two numbers in registers (docs/SPEED.md).
pub fn whole(text: &[u8]) -> &[u8]
    ensures { result.now ≡ text.now }
{
    text
}

// The length of the longest prefix that is UTF-8.
#[tactic(auto, using(crate::specs::Utf8Laws::valid_all))]
pub fn valid_prefix(text: &[u8]) -> usize
    ensures { result ≡ valid_prefix text.now }
{
    check_from(text, 0).valid
}

// The check of a text: its longest prefix that is UTF-8, and the characters there.
pub fn check(text: &[u8]) -> Checked
    ensures { CheckedAs text.now result.valid result.chars }
{
    check_from(text, 0)
}

// The same, for a caller that mostly has short texts: one that is ASCII is told in place. A call would save and load its caller's registers, which counts for a
// text of two bytes.
#[tactic(auto, using(crate::specs::CountLaws::ascii_checked))]
pub fn check_in_place(text: &[u8]) -> Checked
    ensures { CheckedAs text.now result.valid result.chars }
{
    let n = text.len();
    if is_short_ascii(text) {
        return Checked { valid: n, chars: n };
    }
    check(text)
}

// Whether a text is shorter than a block, and ASCII; longer ones are passed quicker by blocks.
fn is_short_ascii(text: &[u8]) -> bool
    ensures { result ≡ true → how_many is_high text.now 0 (length text.now) ≡ 0 }
{
    text.len() < 32 && ascii_bytes(text, 0, text.len()) == text.len()
}

// The check goes on at `at`, where it stood: to where the well-formed sequences from there end, with the characters that it passed.
pub fn check_from(text: &[u8], at: usize) -> Checked
    ensures { (result.valid ≡ valid_end text.now at) × (result.chars ≡ length (chars_of text.now at (valid_end text.now at))) }
{
    let n = text.len();
    if n < at {
        return Checked {
            valid: at,
            chars: 0,
        };
    }
    let mut i = at;
    // How many bytes stand behind the first of their character: only letters that are not ASCII have any, so blocks are passed at their speed.
    let mut later = 0;
    // `loop`: a turn passes the ASCII up to a character and the character, which no iterator gives.
    loop {
        let j = ascii_end(text, i, n);
        let w = sequence_width(text, j);
        if w == 0 {
            return Checked {
                valid: j,
                chars: j - at - later,
            };
        }
        later += w - 1;
        i = j + w;
    }
}

// How many characters from `at` on stand before byte `end`, whatever the bytes are.
pub fn chars_between(text: &[u8], at: usize, end: usize) -> usize
    ensures { (result ≡ length (chars_of text.now at end)) × (result ≤ length text.now) }
{
    let n = text.len();
    if n < at {
        return 0;
    }
    let stop = end.min(n);
    let mut i = at;
    let mut chars = 0;
    // `loop`: as in `check_from`.
    loop {
        let j = ascii_end(text, i, stop);
        chars += j - i;
        if stop <= j {
            return chars;
        }
        chars += 1;
        i = j + width_at(text, j);
    }
}

// The width of the character at `at`, which stands within the text.
fn width_at(text: &[u8], at: usize) -> usize
    requires { at < length text.now }
    ensures { (1 ≤ result) × (at + result ≤ length text.now) × Passed text.now at result }
{
    sequence_at(text, at).width.max(1)
}

// The place after the ASCII bytes at `at` that stand before `stop`, by blocks where there are many.
fn ascii_end(text: &[u8], at: usize, stop: usize) -> usize
    requires { (at ≤ length text.now) × (stop ≤ length text.now) }
    ensures { AsciiTo text.now at stop result }
{
    let i = ascii_blocks(text, at, stop);
    ascii_bytes(text, i, stop)
}

// The place after the blocks of ASCII at `at`. The last block before `stop` may begin among bytes that were passed: so few bytes are looked at one by one.
fn ascii_blocks(text: &[u8], at: usize, stop: usize) -> usize
    requires { (at ≤ length text.now) × (stop ≤ length text.now) }
    ensures { AsciiTo text.now at stop result }
{
    // In a run of letters that are not ASCII no block is tried.
    if 0x80 <= byte(text, at) {
        return at;
    }
    let mut i = at;
    // `while`: the place where it stops is asked afterwards, for the last block.
    while i + 32 <= stop {
        if !is_ascii(text, i) {
            return i;
        }
        i += 32;
    }
    if i < stop && 32 <= stop && is_ascii(text, stop - 32) {
        return stop;
    }
    i
}

// The place of the first byte from `at` on that is no ASCII, or `stop`, whichever comes first.
fn ascii_bytes(text: &[u8], at: usize, stop: usize) -> usize
    requires { (at ≤ length text.now) × (stop ≤ length text.now) }
    ensures { AsciiTo text.now at stop result }
{
    // `while`: with a `for` over the places the check of letters of three bytes took 1.25 times as long.
    let mut i = at;
    while i < stop {
        if 0x80 <= text[i] {
            return i;
        }
        i += 1;
    }
    i
}

// Whether the 32 bytes at `at` are ASCII. All of them are counted, and the count compared with 32: that becomes one test of a vector's signs.
fn is_ascii(text: &[u8], at: usize) -> bool
    requires { at + 32 ≤ length text.now }
    ensures { result ≡ true → how_many is_high text.now at 32 ≡ 0 }
{
    lows(text, at) + lows(text, at + 8) + lows(text, at + 16) + lows(text, at + 24) == 32
}

// How many of the eight bytes at `at` are ASCII.
fn lows(text: &[u8], at: usize) -> u8
    requires { at + 8 ≤ length text.now }
    ensures { (result ≡ how_many is_low text.now at 8) × (result ≤ 8) }
{
    low(text[at])
        + low(text[at + 1])
        + low(text[at + 2])
        + low(text[at + 3])
        + low(text[at + 4])
        + low(text[at + 5])
        + low(text[at + 6])
        + low(text[at + 7])
}

// 1 for an ASCII byte, else 0: a number, so that many of them are summed at once.
fn low(b: u8) -> u8
    ensures { (result ≡ one (is_low b)) × (result ≤ 1) }
{
    u8::from(b < 0x80)
}

// The well-formed sequence at `at`; width 0: none.
fn sequence_at(text: &[u8], at: usize) -> Sequence
    ensures { result ≡ sequence_at (drop at text.now) }
{
    let width = sequence_width(text, at);
    Sequence {
        code: code_at(text, at, width),
        width,
    }
}

// The width of the well-formed sequence at `at`, by table 3-7 of the Unicode Standard; 0: none. A byte is read only where one before it asks for it.
fn sequence_width(text: &[u8], at: usize) -> usize
    ensures { result ≡ (sequence_at (drop at text.now)).width }
{
    if text.len() <= at {
        return 0;
    }
    let b = text[at];
    if b < 0x80 {
        return 1;
    }
    let c = byte(text, at + 1);
    if b < 0xE0 {
        return width_two(b, c);
    }
    let d = byte(text, at + 2);
    if b < 0xF0 {
        return width_three(b, c, d);
    }
    width_four(b, c, d, byte(text, at + 3))
}

// By hand, each width in a function of its own: tried as one `match` on the first byte with guards, the check of text beyond ASCII, and `peek` there, took 1.1 to 1.2
// times as long.

// 2 where the bytes are a sequence of two, else 0.
fn width_two(b: u8, c: u8) -> usize
    requires { (0x80 ≤ b) × (b < 0xE0) }
    ensures { (d e : ℕ) → result ≡ (sequence_of b c d e).width }
{
    if b < 0xC2 {
        return 0;
    }
    if later(c) { 2 } else { 0 }
}

// 3 where the bytes are a sequence of three, else 0.
fn width_three(b: u8, c: u8, d: u8) -> usize
    requires { (0xE0 ≤ b) × (b < 0xF0) }
    ensures { (e : ℕ) → result ≡ (sequence_of b c d e).width }
{
    if !second(b, c) {
        return 0;
    }
    if later(d) { 3 } else { 0 }
}

// 4 where the bytes are a sequence of four, else 0.
fn width_four(b: u8, c: u8, d: u8, e: u8) -> usize
    requires { 0xF0 ≤ b }
    ensures { result ≡ (sequence_of b c d e).width }
{
    if !second(b, c) {
        return 0;
    }
    if !later(d) {
        return 0;
    }
    if !later(e) {
        return 0;
    }
    if b < 0xF5 { 4 } else { 0 }
}

// The code of the sequence at `at`, whose width is given.
#[tactic(auto, using(crate::specs::DecodeLaws::spelled, crate::specs::DecodeLaws::no_code))]
fn code_at(text: &[u8], at: usize, width: usize) -> u32
    requires { width ≡ (sequence_at (drop at text.now)).width }
    ensures { result ≡ (sequence_at (drop at text.now)).code }
{
    match width {
        0 => 0,
        1 => u32::from(text[at]),
        2 => (u32::from(text[at]) - 0xC0) * 64 + bits(text[at + 1]),
        3 => (u32::from(text[at]) - 0xE0) * 4096 + bits(text[at + 1]) * 64 + bits(text[at + 2]),
        _ => {
            (u32::from(text[at]) - 0xF0) * 262144
                + bits(text[at + 1]) * 4096
                + bits(text[at + 2]) * 64
                + bits(text[at + 3])
        }
    }
}

// What a byte after the first adds to a code: its six low bits.
fn bits(b: u8) -> u32
    requires { 0x80 ≤ b }
    ensures { result ≡ b - 0x80 }
{
    u32::from(b) - 0x80
}

// A sequence as a character: U+FFFD, one byte wide, where there is none.
#[tactic(auto, unfolding(crate::specs::Utf8::char_of, crate::specs::Choice::pick))]
fn char_of(s: Sequence) -> Option<Char>
    ensures { result ≡ char_of s }
{
    match s.width {
        0 => Some(Char {
            code: 0xFFFD,
            width: 1,
        }),
        width => Some(Char {
            code: s.code,
            width,
        }),
    }
}

// Whether `c` can stand second after `b`.
fn second(b: u8, c: u8) -> bool
    ensures { result ≡ within c (low b) (high b) }
{
    let lo = low_of(b);
    let hi = high_of(b);
    in_range(c, lo, hi)
}

// Whether `d` can stand third or fourth.
fn later(d: u8) -> bool
    ensures { result ≡ within d 0x80 0xBF }
{
    in_range(d, 0x80, 0xBF)
}

// The least second byte after `b`.
fn low_of(b: u8) -> u8
    ensures { result ≡ low b }
{
    if b == 0xE0 {
        0xA0
    } else {
        if b == 0xF0 { 0x90 } else { 0x80 }
    }
}

// The greatest second byte after `b`.
fn high_of(b: u8) -> u8
    ensures { result ≡ high b }
{
    if b == 0xED {
        0x9F
    } else {
        if b == 0xF4 { 0x8F } else { 0xBF }
    }
}

// By hand: tried as a range's `contains` and as a pattern, the check of text beyond ASCII took 1.1 to 1.4 times as long.
fn in_range(x: u8, lo: u8, hi: u8) -> bool
    ensures { result ≡ within x lo hi }
{
    if lo <= x {
        if x <= hi { true } else { false }
    } else {
        false
    }
}

// The byte at `at`, and 0 past the end.
pub fn byte(text: &[u8], at: usize) -> u8
    ensures { result ≡ get_or text.now at 0 }
{
    text.get(at).copied().unwrap_or(0)
}
