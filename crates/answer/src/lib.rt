// The answer to a call, decided before any list is touched.
#![tactic(auto)]

ghost use Rattle.std.specs.Prelude.{◌≡◌};
ghost use Rattle.laws.specs.Deciding.{refused_as};
ghost use Rattle.answer.specs.Refusals.{number_of, place_of};
ghost use Rattle.answer.specs.declared.Refusal.{Refusal};

use frame::{Frame, Mode, UnknownMode};
use reading::{Answer, Counts, Request};

pub mod decide; // decide.rt: refusals 1 to 9, and 16

/// Why a call is refused, in the order in which it is checked: what does not fit first, then what the rules number from 1 to 9.
#[derive(Clone, Copy, Debug, PartialEq, Eq)]
pub enum Refusal {
    /// 16: the state of a text that arrived in parts does not fit its buffer.
    Unfit,
    /// 1: no mode has the number.
    Mode,
    /// 2: a style above 255 hashes, or a snippet without a style.
    Style,
    /// 3: a text above 65,535 bytes, or a snippet above 66,048.
    Length,
    /// 4: the text is UTF-8 only up to a place.
    NotUtf8 { valid: usize },
    /// 5: a newline is marked as appended, and the text does not end in one.
    Newline,
    /// 6: the list of pieces has no room for them.
    Pieces,
    /// 7: the list of errors.
    Errors,
    /// 8: the list of argument places.
    Places,
    /// 9: the list of line spans.
    Lines,
}

/// The rules' number of a refusal.
impl From<Refusal> for u8 {
    ghost from_gives = { λ refusal number. number ≡ number_of refusal };

    fn from(refusal: Refusal) -> u8 {
        match refusal {
            Refusal::Mode => 1,
            Refusal::Style => 2,
            Refusal::Length => 3,
            Refusal::NotUtf8 { .. } => 4,
            Refusal::Newline => 5,
            Refusal::Pieces => 6,
            Refusal::Errors => 7,
            Refusal::Places => 8,
            Refusal::Lines => 9,
            Refusal::Unfit => 16,
        }
    }
}

impl From<UnknownMode> for Refusal {
    ghost from_gives = { λ _ refusal. refusal ≡ Refusal.Mode };

    fn from(_: UnknownMode) -> Refusal {
        Refusal::Mode
    }
}

/// The answer that says a refusal before anything is counted.
impl From<Refusal> for Answer {
    ghost from_gives = { λ refusal answer. answer ≡ refused_as (number_of refusal) (place_of refusal) };

    fn from(refusal: Refusal) -> Answer {
        Answer {
            number: u8::from(refusal),
            place: refusal.place(),
            counts: Counts {
                pieces: 0,
                errors: 0,
                places: 0,
                lines: 0,
            },
            arguments: 0,
            moves: 0,
        }
    }
}

impl Refusal {
    /// Up to where the text is UTF-8, where it is not; of any other refusal 0.
    pub fn place(self) -> usize
        ensures { result ≡ place_of self }
    {
        match self {
            Refusal::NotUtf8 { valid } => valid,
            _ => 0,
        }
    }
}

// A text that no refusal keeps from being read, and what its reading goes by: the frame, the mode, and how many characters the text has.
#[derive(Clone, Copy)]
pub struct Readable {
    pub frame: Frame,
    pub mode: Mode,
    pub chars: usize,
}

// An answer, and where it is done the text that was read.
#[derive(Clone, Copy)]
pub struct Decision {
    pub answer: Answer,
    pub done: Option<Readable>,
}

// A request, and what is known of its text beforehand. A fresh text is checked. One that arrived in parts may not fit its buffer, may have lost a part that
// passed the limit, and was checked as it came: it is UTF-8 up to `valid`. The mark `checked` stands beside it as the definitions of what is asked have it (`valid_by`).
#[derive(Clone, Copy)]
pub struct Asked {
    pub request: Request,
    pub unfit: bool,
    pub over: bool,
    pub checked: bool,
    pub valid: usize,
}
