// One text from standard input to its plain form on standard output. The mode is the first argument: `format`, which it is without one, `asm` or `diagnostic`. Where the text
// has none, standard error says why, and standard output stays empty.
#![tactic(auto)]

use frame::Mode;
use std::io;
use std::io::Write;

// Tidies a text, and writes its plain form or why there is none.
fn answer<W: Write, E: Write>(
    out: &mut W,
    err: &mut E,
    text: &[u8],
    mode: Mode,
    form: &mut [u8],
) -> io::Result<()> {
    let mode = mode as u8;
    let told = tidies::tidy(text, mode, form);
    if told.number != 0 {
        write!(err, "no plain form: ")?;
        return desk::say_refused(err, text, mode, told);
    }
    out.write_all(&form[..told.bytes])
}

fn main(rt: HostRuntime) -> io::Result<()> {
    let mut err = rt.stderr();
    let Some(mode) = desk::mode_asked(&rt, 1) else {
        return writeln!(err, "the mode is `format`, `asm` or `diagnostic`");
    };
    // One byte more than the longest text that is read: a longer input is read far enough to be refused as 3.
    let mut text = [0u8; 65536];
    let length = intake::read_full(&mut rt.stdin(), &mut text)?;
    let mut form = [0u8; 65536];
    answer(&mut rt.stdout(), &mut err, &text[..length], mode, &mut form)
}
