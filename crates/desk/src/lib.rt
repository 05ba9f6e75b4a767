// What the programs at a clerk's desk share: a mode by its word, where two lists of bytes part, and why a text has no plain form, in words.
#![tactic(auto)]

ghost use Rattle.std.specs.Prelude.{◌≡◌};
ghost use Rattle.frame.specs.Bounds.{Small};
ghost use Rattle.frame.specs.Frames.{same};
ghost use Rattle.desk.specs.Partings.{shared};

use frame::{Frame, Mode};
use reading::Request;
use std::env::{Env, FillError};
use std::io;
use std::io::Write;
use tidiness::Tidied;

// How many bytes two lists start with that are the same in both.
pub fn parting(a: &[u8], b: &[u8]) -> usize
    ensures { result ≡ shared a.now b.now }
{
    let most = a.len().min(b.len());
    for i in 0..most {
        if a[i] != b[i] {
            return i;
        }
    }
    most
}

// Whether two lists are the same bytes.
pub fn equal(a: &[u8], b: &[u8]) -> bool
    ensures { result ≡ same a.now b.now }
{
    a == b
}

// The mode of that name.
pub fn mode_called(word: &[u8]) -> Option<Mode> {
    match word {
        b"format" => Some(Mode::Format),
        b"asm" => Some(Mode::InlineAsm),
        b"diagnostic" => Some(Mode::Diagnostic),
        _ => None,
    }
}

// The mode that an argument of the program calls for: Format where there is none.
pub fn mode_asked<R: Env>(rt: &R, i: usize) -> Option<Mode> {
    let mut word = [0u8; 16];
    match rt.arg(i, &mut word) {
        Ok(length) => mode_called(&word[..length]),
        Err(FillError::NotPresent) => Some(Mode::Format),
        Err(FillError::TooLong) => None,
    }
}

// An error's kind in words.
fn kind_in_words(kind: u8) -> &'static str {
    match kind {
        1 => "a lone `}`; write it twice to have one",
        2 => "another character stands where a placeholder's `}` should",
        3 => "the text ends where a placeholder's `}` should stand",
        4 => "a name starts with `r#`",
        5 => "`#`, `x` or `X` stands behind the `?`, and belongs before it",
        6 => "`_` alone is no name",
        7 => "a number is above 65,535",
        8 => "`?:` stands where a placeholder's `}` should",
        9 => "`?` without a `:` before it",
        10 => "`=` stands before a placeholder's `}`",
        11 => "`<`, `>` or `^` without a `:` before it",
        12 => "`+` without a `:` before it",
        13 => "a name, a dot and a name: fields are not read",
        14 => "a name, a dot and a number: fields are not read",
        15 => "`,` stands where a placeholder's `}` should",
        _ => "",
    }
}

// The first error that is found in a text that has one.
fn say_first_error<E: Write>(err: &mut E, text: &[u8], frame: Frame, mode: Mode) -> io::Result<()>
    requires { Small text.now frame }
{
    let Some(turn) = turns::next_fault(text, frame, mode, turns::first_cursor(text), 0) else {
        return Ok(());
    };
    let words = kind_in_words(turn.record.kind);
    write!(err, ", the first in piece {}: {words}", turn.record.piece)
}

// The same of a text in a mode by its number, which may not be one.
fn say_error<E: Write>(err: &mut E, text: &[u8], mode: u8) -> io::Result<()> {
    let request = Request {
        mode,
        style: None,
        given: false,
        newline: false,
    };
    match answer::decide::opened(text, b"", request) {
        Ok(readable) => say_first_error(err, text, readable.frame, readable.mode),
        Err(_) => Ok(()),
    }
}

// Why a text has no plain form.
pub fn say_refused<E: Write>(err: &mut E, text: &[u8], mode: u8, told: Tidied) -> io::Result<()> {
    match told.number {
        1 => writeln!(err, "there is no such mode"),
        3 => writeln!(err, "it has more than 65,535 bytes"),
        4 => writeln!(err, "it is not UTF-8 from byte {} on", told.place),
        10 => {
            write!(err, "it has errors")?;
            say_error(err, text, mode)?;
            writeln!(err)
        }
        _ => writeln!(err, "its plain form does not fit"),
    }
}
