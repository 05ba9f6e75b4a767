// A list of Format texts, no style, from standard input to its totals, a line each; `answer 25 0` where the input is no list.
// One text is held at a time, and nothing is written before the list has ended. A terminal as standard error is told how many texts are left.
#![tactic(auto)]

ghost use Rattle.std.specs.Prelude.{◌≡◌, ◌≤◌, length, IfOk, IfSome};
ghost use Rattle.std.specs.Io.{ReadsAtMost};
ghost use Rattle.totals.specs.Adding.{Room};
ghost use Rattle.season.specs.Growing.{Grown};

use std::io;
use std::io::{IsTerminal, Read, Write};

fn main(rt: HostRuntime) -> io::Result<()> {
    // One byte more than the longest text of a list.
    let mut text = [0u8; 65536];
    let mut totals = [0usize; 24];
    let mut out = rt.stdout();
    match every_text(&mut rt.stdin(), &mut rt.stderr(), &mut text, &mut totals) {
        Ok(true) => report(&mut out, totals),
        Ok(false) => writeln!(out, "answer 25 0"),
        Err(failed) => {
            writeln!(out, "answer 25 0")?;
            Err(failed)
        }
    }
}

// Counts the texts of the list; says whether they are all there, few enough, and nothing follows.
fn every_text<R: Read, E: Write + IsTerminal>(
    input: &mut R,
    err: &mut E,
    text: &mut [u8],
    totals: &mut [usize],
) -> io::Result<bool>
    requires { (length totals.old ≡ 24) × Room 0x280000000 totals.old }
{
    let Some(count) = number(input)? else {
        return Ok(false);
    };
    if 10000 < count {
        return Ok(false);
    }
    let watched = err.is_terminal();
    let mut next = next_size(input, 0 < count)?;
    for left in (0..count).rev() {
        let Some(size) = next else {
            return Ok(false);
        };
        next = next_text(input, text, size, 0 < left, totals)?;
        show(err, watched, left)?;
    }
    if next.is_none() {
        return Ok(false);
    }
    ended(input)
}

// Reads the length of the next text: 0 if no more follow, and none where the input ends before it.
fn next_size<R: Read>(input: &mut R, more: bool) -> io::Result<Option<usize>>
    ensures { IfOk result (λ o. IfSome o (λ n. n ≤ 65535)) }
{
    if more { number(input) } else { Ok(Some(0)) }
}

// How many bytes are read behind a text: the two of the next one's length, if one follows and the buffer has room for them.
fn behind(room: usize, size: usize, more: bool) -> usize
    requires { size ≤ 65535 }
    ensures { result ≤ 2 }
{
    if more && size + 2 <= room { 2 } else { 0 }
}

// Reads a text of so many bytes, and with it the length of the next, so that most texts take one read; adds the text's totals to those so far. Gives the length of the
// next text, 0 if no more follow; none where bytes are missing.
fn next_text<R: Read>(
    input: &mut R,
    text: &mut [u8],
    size: usize,
    more: bool,
    totals: &mut [usize],
) -> io::Result<Option<usize>>
    requires { (size ≤ 65535) × (length totals.old ≡ 24) × Room 0x100000 totals.old }
    ensures grown { Grown totals.old totals.new }
    ensures next { IfOk result (λ o. IfSome o (λ n. n ≤ 65535)) }
{
    let after = behind(text.len(), size, more);
    let got = part(input, text, size + after)?;
    if got < size + after {
        return Ok(None);
    }
    totals::add_text(&text[..size], totals);
    if after == 2 {
        return Ok(Some(totals::two(text[size], text[size + 1])));
    }
    next_size(input, more)
}

// Reads a number of two bytes; none where the input ends before it.
fn number<R: Read>(input: &mut R) -> io::Result<Option<usize>>
    ensures { IfOk result (λ o. IfSome o (λ n. n ≤ 65535)) }
{
    let mut bytes = [0u8; 2];
    let got = intake::read_full(input, &mut bytes)?;
    if got < 2 {
        return Ok(None);
    }
    Ok(Some(totals::two(bytes[0], bytes[1])))
}

// Reads so many bytes, or fewer where the input ends, or none where the buffer is too small; says how many it read.
fn part<R: Read>(input: &mut R, buffer: &mut [u8], count: usize) -> io::Result<usize>
    ensures { ReadsAtMost result buffer.new }
{
    if buffer.len() < count {
        return Ok(0);
    }
    intake::read_full(input, &mut buffer[..count])
}

// Whether the input ends here: a byte more is asked for, and none comes.
fn ended<R: Read>(input: &mut R) -> io::Result<bool> {
    let mut one = [0u8; 1];
    Ok(input.read(&mut one)? == 0)
}

// Tells a person how many texts are left, every thousand.
fn show<E: Write>(err: &mut E, watched: bool, left: usize) -> io::Result<()> {
    if watched && left % 1000 == 0 {
        writeln!(err, "{left} texts left")?;
    }
    Ok(())
}

// The names of the totals, in the order of the request.
const NAMES: [&str; 24] = [
    "texts", "refused", "sound", "literal", "next", "at", "over", "named", "kind 1", "kind 2",
    "kind 3", "kind 4", "kind 5", "kind 6", "kind 7", "kind 8", "kind 9", "kind 10", "kind 11",
    "kind 12", "kind 13", "kind 14", "kind 15", "stars",
];

// The totals, a line each.
fn report<W: Write>(out: &mut W, totals: [usize; 24]) -> io::Result<()> {
    for (name, total) in NAMES.iter().zip(totals.iter()) {
        writeln!(out, "{name} {total}")?;
    }
    Ok(())
}
