// The end of literal text, for the lane that fills lists. Most literals between placeholders are short: the first sixteen bytes are looked at in place, each by a test of its own, and only a
// long literal takes a call.
#![tactic(auto)]

ghost use Rattle.std.specs.Prelude.{◌≡◌, ◌+◌, ◌≤◌, ◌<◌, length};
ghost use Rattle.utf8.specs.Chars.{run_end};
ghost use Rattle.frame.specs.Places.{place};
ghost use Rattle.scan.specs.Characters.{is_plain, text_end};

use frame::TextPlace;

// How many of the four bytes at `at` stand before the first brace among them; four where there is none.
fn plain_of_four(text: &[u8], at: usize) -> usize
    requires { at + 4 ≤ length text.now }
    ensures same_end { (run_end is_plain text.now (at + result) ≡ run_end is_plain text.now at) × (result ≤ 4) }
    ensures found { result < 4 → at + result ≡ run_end is_plain text.now at }
{
    if scan::plain(text[at]) == 0 {
        return 0;
    }
    if scan::plain(text[at + 1]) == 0 {
        return 1;
    }
    if scan::plain(text[at + 2]) == 0 {
        return 2;
    }
    if scan::plain(text[at + 3]) == 0 {
        return 3;
    }
    4
}

// The end of the literal text at a place from which on sixteen bytes are left.
fn end_by_fours(text: &[u8], at: usize) -> TextPlace
    requires { at + 16 ≤ length text.now }
    ensures { result ≡ text_end text.now (place at) }
{
    let n = plain_of_four(text, at);
    if n < 4 {
        return TextPlace(at + n);
    }
    let n = plain_of_four(text, at + 4);
    if n < 4 {
        return TextPlace(at + 4 + n);
    }
    let n = plain_of_four(text, at + 8);
    if n < 4 {
        return TextPlace(at + 8 + n);
    }
    let n = plain_of_four(text, at + 12);
    if n < 4 {
        return TextPlace(at + 12 + n);
    }
    scan::string_end(utf8::whole(text), TextPlace(at + 16))
}

// The end of the literal text at a place within the text.
pub fn literal_end(text: &[u8], at: TextPlace) -> TextPlace
    requires { at.0 < length text.now }
    ensures { result ≡ text_end text.now at }
{
    let i = at.0;
    if i + 16 <= text.len() {
        return end_by_fours(text, i);
    }
    TextPlace(scan::brace_before(text, i, i + 16))
}
