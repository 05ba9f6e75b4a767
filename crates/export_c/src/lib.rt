// The calls that read, for C: `export`'s own, under the names of include/nitarehpu.h. A library exports nothing to C, so a static library stands over it.
#![tactic(auto)]

ghost use Rattle.words.specs.Calls.{Exported, Counted, request_of};

#[unsafe(no_mangle)]
pub extern "C" fn nitarehpu_read(
    text: &[u8],
    snippet: &[u8],
    mode: u8,
    style: u8,
    hashes: usize,
    given: u8,
    newline: u8,
    pieces: &mut [u32],
    errors: &mut [u32],
    places: &mut [usize],
    lines: &mut [usize],
    answer: &mut [usize],
) -> u8
    ensures { Exported text.now snippet.now (request_of mode style hashes given newline) pieces.old pieces.new errors.old errors.new places.old places.new lines.old lines.new answer.old answer.new result }
{
    export::nitarehpu_read(
        text, snippet, mode, style, hashes, given, newline, pieces, errors, places, lines, answer,
    )
}

#[unsafe(no_mangle)]
pub extern "C" fn nitarehpu_count(
    text: &[u8],
    snippet: &[u8],
    mode: u8,
    style: u8,
    hashes: usize,
    given: u8,
    newline: u8,
    answer: &mut [usize],
) -> u8
    ensures { Counted text.now snippet.now (request_of mode style hashes given newline) answer.old answer.new result }
{
    export::nitarehpu_count(text, snippet, mode, style, hashes, given, newline, answer)
}
