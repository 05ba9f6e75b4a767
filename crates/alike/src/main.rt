// Whether the texts of two files say the same: `the same`, or `differ at piece N: A and B`, with the first piece that is not the same in both, as the plain forms have it.
// The files are the first two arguments; the third is the mode, `format`, which it is without one, `asm` or `diagnostic`. Where a text has no plain form, standard error says
// why, and standard output stays empty.
#![tactic(auto)]

ghost use Rattle.std.specs.Prelude.{◌≡◌, ◌≤◌, [], true, false, length, take, codes, IfOk, IfSome, OnOk};
ghost use Rattle.std.specs.Io.{ReadsAtMost};
ghost use Rattle.std.specs.Io.KnownBytes.{Appends};
ghost use Rattle.frame.specs.Bounds.{Small};
ghost use Rattle.frame.specs.Frames.{same};
ghost use Rattle.alike.specs.Likeness.{Begins, Parted};

use frame::{Frame, Mode, TextRange};
use reading::{Piece, Request};
use std::env::Env;
use std::fs::File;
use std::io;
use std::io::Write;
use std::rt::Files;

// What two runs over pieces have where they part, and how many pieces they had before.
#[derive(Clone, Copy)]
struct Apart {
    piece: usize,
    one: Option<Piece>,
    two: Option<Piece>,
}

// The bytes of a piece.
fn range_of(piece: Piece) -> TextRange {
    match piece {
        Piece::Literal(view) => view,
        Piece::Placeholder(argument) => argument.range,
    }
}

// Whether two pieces are of one sort and written with the same bytes.
fn is_same(one: &[u8], a: Piece, two: &[u8], b: Piece) -> bool {
    let one_sort = match (a, b) {
        (Piece::Literal(_), Piece::Literal(_)) => true,
        (Piece::Placeholder(_), Piece::Placeholder(_)) => true,
        _ => false,
    };
    one_sort
        && desk::equal(
            steps::text::literal_text(one, range_of(a)),
            steps::text::literal_text(two, range_of(b)),
        )
}

// The first pieces that are not the same, or one that the other text has none for.
fn first_apart(one: &[u8], f: Frame, two: &[u8], g: Frame, mode: Mode) -> Apart
    requires { Small one.now f × Small two.now g }
{
    let mut c = turns::first_cursor(one);
    let mut d = turns::first_cursor(two);
    let mut i = 0;
    // `loop`: two runs go on side by side. A run has no more pieces than its text has bytes.
    loop {
        let a = turns::next_piece(one, f, mode, c);
        let b = turns::next_piece(two, g, mode, d);
        match (a, b) {
            (Some(a), Some(b)) if i < one.len() && is_same(one, a.piece, two, b.piece) => {
                c = a.cursor;
                d = b.cursor;
                i += 1;
            }
            _ => {
                return Apart {
                    piece: i,
                    one: a.map(|turn| turn.piece),
                    two: b.map(|turn| turn.piece),
                };
            }
        }
    }
}

// A piece as it is written, or that there is none.
fn put_piece<W: Write>(out: &mut W, text: &[u8], piece: Option<Piece>) -> io::Result<()>
    ensures { OnOk result (Begins [] (W.contents out.old) (W.contents out.new)) }
{
    let Some(piece) = piece else {
        return write!(out, "no more");
    };
    write!(out, "`")?;
    out.write_all(steps::text::literal_text(text, range_of(piece)))?;
    write!(out, "`")
}

fn put_apart<W: Write>(out: &mut W, one: &[u8], two: &[u8], at: Apart) -> io::Result<()>
    ensures { OnOk result (Begins (codes "differ at piece ") (W.contents out.old) (W.contents out.new)) }
{
    let piece = at.piece;
    write!(out, "differ at piece {piece}: ")?;
    put_piece(out, one, at.one)?;
    write!(out, " and ")?;
    put_piece(out, two, at.two)?;
    writeln!(out)
}

// Where two plain forms part.
fn put_parting<W: Write>(out: &mut W, one: &[u8], two: &[u8], mode: u8) -> io::Result<()>
    ensures { OnOk result (Parted (W.contents out.old) (W.contents out.new)) }
{
    let request = Request {
        mode,
        style: None,
        given: false,
        newline: false,
    };
    let Ok(first) = answer::decide::opened(one, b"", request) else {
        return Ok(());
    };
    let Ok(second) = answer::decide::opened(two, b"", request) else {
        return Ok(());
    };
    put_apart(
        out,
        one,
        two,
        first_apart(one, first.frame, two, second.frame, first.mode),
    )
}

// Whether two plain forms are the same, or where they part.
fn put_likeness<W: Write>(out: &mut W, one: &[u8], two: &[u8], mode: u8) -> io::Result<()>
    ensures told { same one.now two.now ≡ true → OnOk result (Appends (W.contents out.old) (W.contents out.new) (codes "the same\n")) }
    ensures apart { same one.now two.now ≡ false → OnOk result (Parted (W.contents out.old) (W.contents out.new)) }
{
    if desk::equal(one, two) {
        return writeln!(out, "the same");
    }
    put_parting(out, one, two, mode)
}

// Tidies two texts and says whether their plain forms are the same.
fn compare<W: Write, E: Write>(
    out: &mut W,
    err: &mut E,
    one: &[u8],
    two: &[u8],
    mode: u8,
    first: &mut [u8],
    second: &mut [u8],
) -> io::Result<()> {
    let told = tidies::tidy(one, mode, first);
    if told.number != 0 {
        write!(err, "the first has no plain form: ")?;
        return desk::say_refused(err, one, mode, told);
    }
    let other = tidies::tidy(two, mode, second);
    if other.number != 0 {
        write!(err, "the second has no plain form: ")?;
        return desk::say_refused(err, two, mode, other);
    }
    put_likeness(out, &first[..told.bytes], &second[..other.bytes], mode)
}

// Reads the file of that name, as far as the text has room.
fn read_file<R: Files>(rt: &R, name: &[u8], text: &mut [u8]) -> io::Result<usize>
    ensures { ReadsAtMost result text.new }
{
    match str::from_utf8(name) {
        Ok(name) => {
            let mut file = File::open(rt, name)?;
            intake::read_full(&mut file, text)
        }
        Err(_) => Err(io::Error::new(
            io::ErrorKind::InvalidInput,
            "a file's name that is not UTF-8",
        )),
    }
}

// How much is looked at of the file that an argument names, which is read. A file that cannot be opened or read is said on standard error.
fn take<R: Env + Files, E: Write>(
    rt: &R,
    err: &mut E,
    i: usize,
    text: &mut [u8],
) -> io::Result<Option<usize>>
    ensures { IfOk result (λ t. IfSome t (λ n. (n ≤ length text.new) × (n ≡ length (take n text.new)))) }
{
    let mut path = [0u8; 4096];
    match rt.arg(i, &mut path) {
        Ok(length) => {
            match read_file(rt, &path[..length], text) {
                Ok(length) => Ok(Some(length)),
                Err(e) => {
                    err.write_all(&path[..length])?;
                    writeln!(err, ": {e}")?;
                    Ok(None)
                }
            }
        }
        Err(_) => {
            writeln!(
                err,
                "alike ONE TWO [MODE]: two files, and `format`, `asm` or `diagnostic`"
            )?;
            Ok(None)
        }
    }
}

fn main(rt: HostRuntime) -> io::Result<()> {
    let mut err = rt.stderr();
    let Some(mode) = desk::mode_asked(&rt, 3) else {
        return writeln!(err, "the mode is `format`, `asm` or `diagnostic`");
    };
    // One byte more than the longest text that is read: a longer file is read far enough to be refused as 3.
    let mut one = [0u8; 65536];
    let mut two = [0u8; 65536];
    let Some(a) = take(&rt, &mut err, 1, &mut one)? else {
        return Ok(());
    };
    let Some(b) = take(&rt, &mut err, 2, &mut two)? else {
        return Ok(());
    };
    let mut first = [0u8; 65536];
    let mut second = [0u8; 65536];
    compare(
        &mut rt.stdout(),
        &mut err,
        &one[..a],
        &two[..b],
        mode as u8,
        &mut first,
        &mut second,
    )
}
