// What a call takes and gives, what a reading is made of, and their definitions; no functions.
#![tactic(auto)]

use closing::whole::PlaceholderRead;
use frame::{Span, TextPlace, TextRange};
use placeholder::Argument;

// Where reading stands, the next argument's number, and how many arguments the pieces so far want.
#[derive(Clone, Copy)]
pub struct State {
    pub at: TextPlace,
    pub next: usize,
    pub arguments: usize,
}

// What one step comes to: the end of the text, a lone `}` at a place, a literal's view, or a placeholder.
#[derive(Clone, Copy)]
pub enum Step {
    End,
    Stop(TextPlace),
    Literal(TextRange),
    Placeholder(PlaceholderRead),
}

// What a reading found wrong: the rules' fifteen kinds, with the places that their records are made from.
#[derive(Clone, Copy)]
pub enum Fault {
    // Nothing is wrong: a case like the others, so that a step's slots are one list of faults (`step_slots`).
    Clean,
    // 1: a lone `}`.
    Unmatched(TextPlace),
    // 2: a `}` was expected where this character stands; the character that says why.
    Expected(TextPlace, TextPlace),
    // 3: a `}` was expected at the end; the character that says why.
    Unclosed(TextPlace),
    // 4: an `r#` name, its prefix included.
    RawName(TextRange),
    // 5: the `?` before a `#`, `x` or `X`.
    AfterDebug(TextPlace),
    // 6: the word `_`.
    Underscore(TextRange),
    // 7: the digits of a number above 65,535.
    TooLarge(TextRange),
    // 8: a `?` before `:`, and the word after them.
    DebugFirst(TextPlace, TextRange),
    // 9: a `?` before `}`, without a colon.
    NoColon(TextPlace),
    // 10: an `=` before `}`; the opening brace.
    Equals(TextPlace, TextPlace),
    // 11: an align that is misplaced.
    Misplaced(TextPlace),
    // 12: a `+` without a colon.
    PlusFirst(TextPlace),
    // 13: a field access, from the place's start to the field's end.
    Field(TextPlace, TextPlace),
    // 14: a tuple index, likewise.
    TupleIndex(TextPlace, TextPlace),
    // 15: a `,`; the opening brace.
    Comma(TextPlace, TextPlace),
}

#[derive(Clone, Copy)]
pub enum Piece {
    Literal(TextRange),
    Placeholder(Argument),
}

#[derive(Clone, Copy)]
pub struct ErrorRecord {
    // The rules' number of the kind, by which lists are compared and other languages know it.
    pub kind: u8,
    pub span: Span,
    pub second: Option<Span>,
    pub quoted: Option<TextRange>,
    pub suggestion: Option<Span>,
    // How many pieces were listed when it was recorded.
    pub piece: usize,
}

// How many records each list needs.
#[derive(Clone, Copy)]
pub struct Counts {
    pub pieces: usize,
    pub errors: usize,
    pub places: usize,
    pub lines: usize,
}

// How a text is to be read. A snippet that is not given is not looked at.
#[derive(Clone, Copy)]
pub struct Request {
    // The rules' number, as it came: one that is no mode is refused.
    pub mode: u8,
    // A raw string with so many hashes, or no style.
    pub style: Option<usize>,
    // Whether a snippet is given: a mark of its own, as the definitions of a call have it (`is_styled`, `is_long`, `frame_of`).
    pub given: bool,
    pub newline: bool,
}

// How many records each list has room for.
#[derive(Clone, Copy)]
pub struct Rooms {
    pub pieces: usize,
    pub errors: usize,
    pub places: usize,
    pub lines: usize,
}

// The rules' number (0: done), the place (of 4, else 0), the records needed (of 0 and 6 to 9, else none), and of 0 how many arguments
// the pieces want and how many characters were passed, else 0.
#[derive(Clone, Copy)]
pub struct Answer {
    pub number: u8,
    pub place: usize,
    pub counts: Counts,
    pub arguments: usize,
    pub moves: usize,
}
