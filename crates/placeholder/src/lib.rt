// What stands between two braces: a place, a spec in each mode's grammar, and what is found wrong there.
#![tactic(auto)]

use frame::{Span, TextRange};
use scan::{Count, Flaw, Numeral};

pub mod position; // position.rt: the place: a number, a word, or nothing
pub mod format; // format.rt: the Format spec, a part at a time
pub mod modes; // modes.rt: the spec of each mode
pub mod between; // between.rt: all between the braces

// Where an argument is found: the next one, the one with a number, which may be over range, the one with a name.
#[derive(Clone, Copy)]
pub enum Place {
    Next(usize),
    At(Numeral),
    Named(TextRange),
}

// The fill character's code, and its span.
#[derive(Clone, Copy)]
pub struct Fill {
    pub code: u32,
    pub span: Span,
}

// `Unknown`: none is written, as the Rust calls it.
#[derive(Clone, Copy)]
pub enum Align {
    Unknown,
    Left,
    Right,
    Center,
}

// Three cases, no Option of two: they have the numbers 0, 1 and 2 of the layout (`sign_of` in words), and one match tells them.
#[derive(Clone, Copy)]
pub enum Sign {
    Absent,
    Plus,
    Minus,
}

// The `x` of `x?`, or the `X` of `X?`; three cases, as of a sign.
#[derive(Clone, Copy)]
pub enum Hex {
    Absent,
    Lower,
    Upper,
}

// How an argument is to be written.
#[derive(Clone, Copy)]
pub struct Spec {
    pub fill: Option<Fill>,
    pub align: Align,
    pub sign: Sign,
    pub alternate: bool,
    pub zero: bool,
    pub hex: Hex,
    pub width: Count,
    pub widthspan: Option<Span>,
    pub precision: Count,
    pub precisionspan: Option<Span>,
    // The type's text, empty where none stands.
    pub typetext: TextRange,
    pub typespan: Option<Span>,
}

// A placeholder's record.
#[derive(Clone, Copy)]
pub struct Argument {
    pub place: Place,
    pub placespan: Span,
    pub spec: Spec,
    // From the opening brace to where reading stood afterwards.
    pub range: TextRange,
}

// What one argument found wrong, in the order of reading.
#[derive(Clone, Copy)]
pub struct ArgumentFlaws {
    pub place: Flaw,
    pub raw: Flaw,
    pub width: Flaw,
    pub precision: Flaw,
    pub typetext: Flaw,
}
