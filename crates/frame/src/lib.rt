// Places of the text and of the snippet, and the frame of a reading: quote offset, "end", source literal or not.
// Rests on the choice by a test of `utf8`'s specs.
#![tactic(auto)]

ghost use Rattle.std.specs.Prelude.{◌≡◌, ◌≤◌, length};
ghost use Rattle.frame.specs.Frames.{hashes_of, quote_offset, body, hash_marks, opening, closing, raw_literal, same, is_literal, frame_of};
ghost use Rattle.frame.specs.Spans.{to_snippet, start_of, span_between};
ghost use Rattle.frame.specs.Bounds.{Small};
ghost use Rattle.frame.specs.Modes.{Decodes};

// A byte place in the text.
#[derive(Clone, Copy)]
pub struct TextPlace(pub usize);

// A place in the snippet.
#[derive(Clone, Copy)]
pub struct SnippetPlace(pub usize);

// Bytes of the text.
#[derive(Clone, Copy)]
pub struct TextRange {
    pub start: TextPlace,
    pub end: TextPlace,
}

// A part of the snippet; it may come out reversed, and is kept so.
#[derive(Clone, Copy)]
pub struct Span {
    pub start: SnippetPlace,
    pub end: SnippetPlace,
}

// Which grammar a text is read by.
#[derive(Clone, Copy)]
pub enum Mode {
    Format,
    InlineAsm,
    Diagnostic,
}

// A number that is no mode's.
#[derive(Clone, Copy, Debug, PartialEq, Eq)]
pub struct UnknownMode(pub u8);

impl TryFrom<u8> for Mode {
    type Error = UnknownMode;

    ghost try_from_gives = { Decodes };

    fn try_from(number: u8) -> Result<Mode, UnknownMode> {
        match number {
            0 => Ok(Mode::Format),
            1 => Ok(Mode::InlineAsm),
            2 => Ok(Mode::Diagnostic),
            _ => Err(UnknownMode(number)),
        }
    }
}

// What does not change over a reading.
#[derive(Clone, Copy)]
pub struct Frame {
    pub quote: usize,
    pub end: SnippetPlace,
    pub literal: bool,
}

// How far the text's first byte stands from the snippet's start. A style is a raw string with so many hashes, or none.
pub fn quote_offset(style: Option<u8>) -> usize
    ensures { result ≡ quote_offset style }
{
    match style {
        None => 1,
        Some(hashes) => hashes as usize + 2,
    }
}

// How many hashes a style has.
fn hashes_of(style: Option<u8>) -> usize
    ensures { result ≡ hashes_of style }
{
    match style {
        None => 0,
        Some(hashes) => hashes as usize,
    }
}

// The text less an appended newline.
fn body_of(text: &[u8], newline: bool) -> &[u8]
    ensures { result.now ≡ body text.now newline }
{
    if !newline {
        return text;
    }
    match text.split_last() {
        Some((_, body)) => body,
        None => text,
    }
}

// A part is so many hashes.
fn is_marks(part: &[u8], hashes: u8) -> bool
    ensures { result ≡ same part.now (hash_marks hashes) }
{
    part.len() == hashes as usize && part.iter().all(|byte| *byte == b'#')
}

// A part is r, the hashes and a quote.
fn opens(part: &[u8], hashes: u8) -> bool
    ensures { result ≡ same part.now (opening hashes) }
{
    match part {
        [b'r', marks @ .., b'"'] => is_marks(marks, hashes),
        _ => false,
    }
}

// A part is a quote and the hashes.
fn closes(part: &[u8], hashes: u8) -> bool
    ensures { result ≡ same part.now (closing hashes) }
{
    match part {
        [b'"', marks @ ..] => is_marks(marks, hashes),
        _ => false,
    }
}

// A snippet is the raw string with so many hashes around a body, exactly.
fn is_raw_literal(snippet: &[u8], hashes: u8, inside: &[u8]) -> bool
    ensures { result ≡ same snippet.now (raw_literal hashes inside.now) }
{
    let Some((head, rest)) = snippet.split_at_checked(hashes as usize + 2) else {
        return false;
    };
    // Asked before the body is looked at, which may be long.
    if !opens(head, hashes) {
        return false;
    }
    let Some(tail) = rest.strip_prefix(inside) else {
        return false;
    };
    closes(tail, hashes)
}

// The snippet is a source literal.
fn is_literal(text: &[u8], style: Option<u8>, given: bool, snippet: &[u8], newline: bool) -> bool
    ensures { result ≡ is_literal text.now style given snippet.now newline }
{
    match style {
        Some(hashes) => given && is_raw_literal(snippet, hashes, body_of(text, newline)),
        None => false,
    }
}

// The frame of a reading; `given` says whether there is a snippet.
pub fn frame_of(text: &[u8], style: Option<u8>, given: bool, snippet: &[u8], newline: bool) -> Frame
    ensures { result ≡ frame_of text.now style given snippet.now newline }
{
    let quote = quote_offset(style);
    if is_literal(text, style, given, snippet, newline) {
        let end = snippet.len() - hashes_of(style) - 1;
        return Frame {
            quote,
            end: SnippetPlace(end),
            literal: true,
        };
    }
    if given {
        return Frame {
            quote,
            end: SnippetPlace(snippet.len()),
            literal: false,
        };
    }
    let inside = body_of(text, newline);
    Frame {
        quote,
        end: SnippetPlace(inside.len()),
        literal: false,
    }
}

// The snippet place of a byte of the text: the only conversion between the two counters.
pub fn to_snippet(frame: Frame, at: TextPlace) -> SnippetPlace
    requires { (at.0 ≤ 65535) × (frame.quote ≤ 257) }
    ensures { result ≡ to_snippet frame at }
{
    let moved = at.0 + frame.quote;
    SnippetPlace(moved)
}

// The snippet place where the character at a text place starts; past the text, "end".
pub fn start_of(text: &[u8], frame: Frame, at: TextPlace) -> SnippetPlace
    requires { Small text.now frame }
    ensures { result ≡ start_of text.now frame at }
{
    let i = at.0;
    if i < text.len() {
        to_snippet(frame, at)
    } else {
        frame.end
    }
}

// The span from the start of one text place to the start of another.
pub fn span_between(text: &[u8], frame: Frame, from: TextPlace, to: TextPlace) -> Span
    requires { Small text.now frame }
    ensures { result ≡ span_between text.now frame from to }
{
    let start = start_of(text, frame, from);
    let end = start_of(text, frame, to);
    Span { start, end }
}
