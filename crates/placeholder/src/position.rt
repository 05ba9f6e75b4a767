// The place of an argument: a number, a word, or nothing.
ghost use Rattle.std.specs.Prelude.{◌≡◌};
ghost use Rattle.placeholder.specs.Places.{is_r, raw_place, word_place, place_read};

use frame::{TextPlace, TextRange};
use scan::{Flaw, Numeral};

// A place as it is written. Nothing: the place is counted once its spec is read.
#[derive(Clone, Copy)]
pub enum Found {
    Nothing,
    Number(Numeral),
    Word(TextRange),
}

#[derive(Clone, Copy)]
pub struct PlaceRead {
    pub found: Found,
    pub at: TextPlace,
    pub flaw: Flaw,
    pub raw: Flaw,
}

// Whether a word is `r`.
fn is_r(text: &[u8], name: TextRange) -> bool
    ensures { result ≡ is_r text.now name }
{
    let letter = scan::consume(text, name.start, b'r');
    letter.ate && letter.at.0 == name.end.0
}

// After the word `r`: with `#` and a further word it is an `r#` name, which is taken without its prefix and is a flaw.
fn raw_place(text: &[u8], name: TextRange) -> PlaceRead
    ensures { result ≡ raw_place text.now name }
{
    let hash = scan::consume(text, name.end, b'#');
    if hash.ate {
        let read = scan::word(text, hash.at);
        let inner = read.word;
        if !scan::is_empty(inner) {
            let whole = TextRange {
                start: name.start,
                end: inner.end,
            };
            return PlaceRead {
                found: Found::Word(inner),
                at: inner.end,
                flaw: read.flaw,
                raw: Flaw::RawName(whole),
            };
        }
    }
    PlaceRead {
        found: Found::Word(name),
        at: name.end,
        flaw: Flaw::Clean,
        raw: Flaw::Clean,
    }
}

// A word, or nothing.
fn word_place(text: &[u8], at: TextPlace) -> PlaceRead
    ensures { result ≡ word_place text.now at }
{
    let read = scan::word(text, at);
    let name = read.word;
    if scan::is_empty(name) {
        return PlaceRead {
            found: Found::Nothing,
            at,
            flaw: Flaw::Clean,
            raw: Flaw::Clean,
        };
    }
    if is_r(text, name) {
        return raw_place(text, name);
    }
    PlaceRead {
        found: Found::Word(name),
        at: name.end,
        flaw: read.flaw,
        raw: Flaw::Clean,
    }
}

// The place at a place of the text.
pub fn position(text: &[u8], at: TextPlace) -> PlaceRead
    ensures { result ≡ place_read text.now at }
{
    let read = scan::integer(text, at);
    match read.number {
        Some(value) => PlaceRead {
            found: Found::Number(value),
            at: read.digits.end,
            flaw: read.flaw,
            raw: Flaw::Clean,
        },
        None => word_place(text, at),
    }
}
