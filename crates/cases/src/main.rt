// A stream of cases on standard input to the full listing on standard output: each case's answer, and every record of its lists.
// A case is a head of 20 bytes, a snippet and a text. Numbers stand low byte first, and a mark other than 1 is none.
#![tactic(auto)]

ghost use Rattle.std.specs.Prelude.{◌≤◌};
ghost use Rattle.std.specs.Io.{ReadsAtMost};

use reading::{Request, Rooms};
use std::io;
use std::io::{Read, Write};

// More cases than any stream has. A proved loop has to end, and nothing says that a stream does.
const MOST: usize = 0xFFFFFFFFFFFF;

fn main(rt: HostRuntime) -> io::Result<()> {
    // The longest snippet and the longest text of a case.
    let mut snippet = [0u8; 66560];
    let mut text = [0u8; 66560];
    let mut out = rt.stdout();
    every_case(&mut rt.stdin(), &mut out, &mut snippet, &mut text)?;
    out.flush()
}

// Lists the cases of the stream, counted from 0.
fn every_case<R: Read, W: Write>(
    input: &mut R,
    out: &mut W,
    snippet: &mut [u8],
    text: &mut [u8],
) -> io::Result<()> {
    for k in 0..MOST {
        if !next_case(input, out, k, snippet, text)? {
            break;
        }
    }
    Ok(())
}

// Reads a case's head, and says whether the stream goes on. It may end before the head.
fn next_case<R: Read, W: Write>(
    input: &mut R,
    out: &mut W,
    k: usize,
    snippet: &mut [u8],
    text: &mut [u8],
) -> io::Result<bool> {
    let mut head = [0u8; 20];
    let got = intake::read_full(input, &mut head)?;
    if got == 0 {
        return Ok(false);
    }
    if got < 20 {
        return broken(out);
    }
    listed_case(input, out, k, head, snippet, text)
}

// Reads a case's snippet and text, and lists the case. Fewer bytes than their lengths break the stream off.
fn listed_case<R: Read, W: Write>(
    input: &mut R,
    out: &mut W,
    k: usize,
    head: [u8; 20],
    snippet: &mut [u8],
    text: &mut [u8],
) -> io::Result<bool> {
    let asked = three(head[14], head[15], head[16]);
    let before = part(input, snippet, asked)?;
    if before < asked {
        return broken(out);
    }
    let asked = three(head[17], head[18], head[19]);
    let length = part(input, text, asked)?;
    if length < asked {
        return broken(out);
    }
    let request = request_of(head);
    let rooms = rooms_of(head);
    report::one_case(out, k, &text[..length], &snippet[..before], request, rooms)?;
    Ok(true)
}

// Reads so many bytes of the stream, or fewer where it ends, or none where the buffer is too small; says how many it read.
fn part<R: Read>(input: &mut R, buffer: &mut [u8], count: usize) -> io::Result<usize>
    ensures { ReadsAtMost result buffer.new }
{
    if buffer.len() < count {
        return Ok(0);
    }
    intake::read_full(input, &mut buffer[..count])
}

// A stream that breaks off ends with one line.
fn broken<W: Write>(out: &mut W) -> io::Result<bool> {
    writeln!(out, "stream")?;
    Ok(false)
}

// A number of two bytes.
fn two(low: u8, high: u8) -> usize
    ensures { result ≤ 65535 }
{
    u16::from_le_bytes([low, high]) as usize
}

// A number of three bytes.
fn three(low: u8, middle: u8, high: u8) -> usize {
    u32::from_le_bytes([low, middle, high, 0]) as usize
}

// Bytes 0 to 5: the mode, the style's mark and its hashes, and the marks of a snippet and of an appended newline.
fn request_of(head: [u8; 20]) -> Request {
    let style = (head[1] == 1).then_some(two(head[2], head[3]));
    Request {
        mode: head[0],
        style,
        given: head[4] == 1,
        newline: head[5] == 1,
    }
}

// Bytes 6 to 13: the rooms of pieces, errors, argument places and line spans.
fn rooms_of(head: [u8; 20]) -> Rooms {
    Rooms {
        pieces: two(head[6], head[7]),
        errors: two(head[8], head[9]),
        places: two(head[10], head[11]),
        lines: two(head[12], head[13]),
    }
}
