// Whether a character is whitespace, starts an identifier or continues one, and the runs of such characters.
#![tactic(auto)]

ghost use Rattle.std.specs.Prelude.{ℕ, Bool, ◌≡◌, true, false, ◌<◌, ◌^◌, T, length, get_or};
ghost use Rattle.utf8.specs.Chars.{run_end};
ghost use Rattle.letters.specs.Table.{member, ascending};
ghost use Rattle.letters.specs.Ascii.{ascii_space, ascii_start, ascii_continue};
ghost use Rattle.letters.specs.Questions.{is_space, is_start, is_continue};

use crate::tables::{CONTINUE, SPACE, START};

mod tables; // tables.rt: White_Space, identifier start and continuation

// Whether a character is White_Space. ASCII is answered without the table.
pub fn is_space(c: u32) -> bool
    ensures { result ≡ is_space c }
{
    if c < 0x80 {
        return ascii_space(c as u8);
    }
    in_table(&SPACE, c)
}

// Whether a character can start an identifier: `_` or XID_Start. ASCII and the letters that names mostly have beyond it are answered without the table.
pub fn is_start(c: u32) -> bool
    ensures { result ≡ is_start c }
{
    if c < 0x80 {
        return ascii_start(c as u8);
    }
    is_frequent(c) || in_script(c) || in_table(&START, c)
}

// Whether a character can continue an identifier: XID_Continue.
#[tactic(auto, using(crate::specs::QuestionLaws::start_continues))]
pub fn is_continue(c: u32) -> bool
    ensures { result ≡ is_continue c }
{
    if c < 0x80 {
        return ascii_continue(c as u8);
    }
    is_frequent(c) || in_script(c) || in_table(&CONTINUE, c)
}

// Whether an ASCII byte is whitespace: a space, or 9 to 13.
#[tactic(auto, unfolding(crate::specs::Ascii::ascii_space, utf8::specs::Choice::within))]
fn ascii_space(b: u8) -> bool
    ensures { result ≡ ascii_space b }
{
    matches!(b, b' ' | 9..=13)
}

// Whether a byte is an ASCII letter or `_`. Small letters come first: they are the most.
pub fn ascii_start(b: u8) -> bool
    ensures { result ≡ ascii_start b }
{
    if 0x61 <= b {
        return b <= 0x7A;
    }
    if b < 0x41 {
        return false;
    }
    if b <= 0x5A {
        return true;
    }
    b == 0x5F
}

// Whether a byte is an ASCII letter, a digit or `_`.
fn ascii_continue(b: u8) -> bool
    ensures { result ≡ ascii_continue b }
{
    if 0x61 <= b {
        return b <= 0x7A;
    }
    if b < 0x30 {
        return false;
    }
    if b <= 0x39 {
        return true;
    }
    ascii_start(b)
}

// The sign `×`, the only character from C0 to F6 that starts no name.
const TIMES_SIGN: u32 = 0xD7;

// Whether a character is in the ranges that names mostly have beyond ASCII, Latin, Greek and Cyrillic letters and Han characters, which no table is stored for.
fn is_frequent(c: u32) -> bool
    ensures { result ≡ true → is_start c ≡ true }
{
    if 0xF8 <= c {
        if c <= 0x2C1 {
            return true;
        }
        if 0x4E00 <= c {
            return c <= 0xA48C;
        }
        if c < 0x3A3 {
            return false;
        }
        if 0x481 < c {
            return false;
        }
        return c != 0x3F6;
    }
    if c < 0xC0 {
        return false;
    }
    if c == TIMES_SIGN {
        return false;
    }
    c != 0xF7
}

// Whether a character is among the letters of other scripts that stand in one range: Hebrew and Arabic, Devanagari and Thai, Georgian and the rest of Latin, Kana
// and Hangul. No table is stored for these either.
fn in_script(c: u32) -> bool
    ensures { result ≡ true → is_start c ≡ true }
{
    if c < 0x1000 {
        return in_script_below_1000(c);
    }
    if c < 0x3041 {
        if c <= 0x10FA {
            return 0x10D0 <= c;
        }
        if c < 0x1E00 {
            return false;
        }
        return c <= 0x1F15;
    }
    if c <= 0x3096 {
        return true;
    }
    if c <= 0x30FA {
        return 0x30A1 <= c;
    }
    if c < 0xAC00 {
        return false;
    }
    c <= 0xD7A3
}

fn in_script_below_1000(c: u32) -> bool
    ensures { result ≡ true → is_start c ≡ true }
{
    if c < 0x900 {
        if c <= 0x5EA {
            return 0x5D0 <= c;
        }
        if c < 0x620 {
            return false;
        }
        return c <= 0x64A;
    }
    if c <= 0x939 {
        return 0x904 <= c;
    }
    if c < 0xE01 {
        return false;
    }
    c <= 0xE30
}

// Where the whitespace from `at` ends. An ASCII character above the space ends it at once.
pub fn space_end(text: &[u8], at: usize) -> usize
    ensures { result ≡ run_end is_space text.now at }
{
    if matches!(utf8::byte(text, at), 0x21..=0x7F) {
        return at;
    }
    run_end(is_space, text, at)
}

// Where the continuations from `at` end. ASCII is passed a byte at a time.
pub fn continue_end(text: &[u8], at: usize) -> usize
    ensures { result ≡ run_end is_continue text.now at }
{
    let i = ascii_continue_end(text, at);
    if utf8::byte(text, i) < 0x80 {
        return i;
    }
    run_end(is_continue, text, i)
}

// The place after the ASCII continuations at `at`.
pub fn ascii_continue_end(text: &[u8], at: usize) -> usize
    ensures same_end { run_end is_continue text.now result ≡ run_end is_continue text.now at }
    ensures stops { result < length text.now → ascii_continue (get_or text.now result 0) ≡ false }
{
    for i in at..text.len() {
        if !ascii_continue(text[i]) {
            return i;
        }
    }
    at.max(text.len())
}

// Where the run of characters from `at` that pass a test ends.
fn run_end<F: Fn(u32) -> bool>(passes: F, text: &[u8], at: usize) -> usize
    requires { F.IsAlwaysCallable passes }
    ensures { (test : ℕ → Bool) → ((c : ℕ) (answer : Bool) → c < 2 ^ 32 → F.post passes c answer → answer ≡ test c) → result ≡ run_end test text.now at }
{
    let mut i = at;
    while let Some(seen) = utf8::peek(text, i) {
        if !passes(seen.code) {
            return i;
        }
        i += seen.width;
    }
    i
}

// Whether a range of the table holds `c`, by halving. By hand: std's `partition_point` over the bounds, which stops at no range, was measured up to a third slower.
fn in_table(table: &[u32], c: u32) -> bool
    requires { T (ascending 0 table.now) }
    ensures { result ≡ member table.now c }
{
    let mut lo = 0;
    let mut hi = table.len() / 2;
    while lo < hi {
        let mid = lo + (hi - lo) / 2;
        if c < table[2 * mid] {
            hi = mid;
        } else if table[2 * mid + 1] < c {
            lo = mid + 1;
        } else {
            return true;
        }
    }
    false
}
