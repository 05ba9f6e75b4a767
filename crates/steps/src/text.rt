// A literal's bytes, as a part of the caller's text.
ghost use Rattle.std.specs.Prelude.{◌≡◌, leb};
ghost use Rattle.utf8.specs.Choice.{both};
ghost use Rattle.reading.specs.Texts.{is_boundary, literal_text};

use frame::TextRange;

// The last of the bytes that stand behind the first of their character: 80 to BF.
const LAST_BEHIND: u8 = 0xBF;

// Whether a place is within the text and stands before no byte 80 to BF.
#[tactic(auto, unfolding(reading::specs::Texts::is_boundary, utf8::specs::Choice::pick, utf8::specs::Choice::within))]
fn is_boundary(text: &[u8], at: usize) -> bool
    ensures { result ≡ is_boundary text.now at }
{
    if at < text.len() {
        let b = text[at];
        b < 0x80 || LAST_BEHIND < b
    } else {
        at == text.len()
    }
}

// Whether a range is not reversed, is within the text, and cuts no character.
fn is_part(text: &[u8], start: usize, end: usize) -> bool
    ensures { result ≡ both (leb start end) (both (is_boundary text.now start) (is_boundary text.now end)) }
{
    start <= end && is_boundary(text, start) && is_boundary(text, end)
}

// The bytes of a range, or the empty part at the start where the range is reversed, passes the end, or cuts a character.
pub fn literal_text(text: &[u8], range: TextRange) -> &[u8]
    ensures { result.now ≡ literal_text text.now range }
{
    let start = range.start.0;
    let end = range.end.0;
    if is_part(text, start, end) {
        return &text[start..end];
    }
    &text[0..0]
}
