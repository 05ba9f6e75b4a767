// Asks the three questions of every scalar value and writes what they answer: for each question its name and the number of
// maximal ranges, then the ranges, a line each, in hex. Surrogates are no scalar values, so no range crosses them.
#![tactic(auto)]

ghost use Rattle.std.specs.Prelude.{◌+◌, ◌≤◌, ◌<◌, IfSome};

use std::io;
use std::io::Write;
use std::ops::Range;

// The first code past the last scalar value.
const PAST: u32 = 0x110000;

fn main(rt: HostRuntime) -> io::Result<()> {
    let mut out = rt.stdout();
    section(&mut out, "space", letters::is_space)?;
    section(&mut out, "start", letters::is_start)?;
    section(&mut out, "continue", letters::is_continue)
}

fn section<W: Write, F: Fn(u32) -> bool>(out: &mut W, name: &str, question: F) -> io::Result<()>
    requires { F.IsAlwaysCallable question }
{
    let count = count_ranges(&question);
    writeln!(out, "{name} {count}")?;
    let mut from = 0;
    while let Some(range) = next_range(&question, from) {
        writeln!(out, "{:X} {:X}", range.start, range.end - 1)?;
        from = range.end;
    }
    Ok(())
}

// How many ranges there are.
fn count_ranges<F: Fn(u32) -> bool>(question: &F) -> u32
    requires { F.IsAlwaysCallable question.now }
{
    let mut count = 0;
    let mut from = 0;
    while let Some(range) = next_range(question, from) {
        count += 1;
        from = range.end;
    }
    count
}

// The first maximal range of scalar values of which the answer is yes, from a code on.
fn next_range<F: Fn(u32) -> bool>(question: &F, from: u32) -> Option<Range<u32>>
    requires { F.IsAlwaysCallable question.now }
    ensures { IfSome result (λ r. (from ≤ r.start) × (r.start < r.end) × (r.end ≤ 0x110000)) }
{
    let holds = |c: u32| char::from_u32(c).is_some() && question(c);
    let start = (from..PAST).find(|c| holds(*c))?;
    let end = (start + 1..PAST).find(|c| !holds(*c)).unwrap_or(PAST);
    Some(start..end)
}
