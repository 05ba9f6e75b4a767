// The calls that take a text in parts, for C: those of `arrivals`, under the names of include/nitarehpu.h. A library exports nothing to C, so a static library
// stands over it.
#![tactic(auto)]

ghost use Rattle.words.specs.Calls.{request_of};
ghost use Rattle.arrivals.specs.Calls.{Sent, Closed};

#[unsafe(no_mangle)]
pub extern "C" fn nitarehpu_part(state: &mut [usize], buffer: &mut [u8], bytes: &[u8]) -> u8
    ensures { Sent state.old state.new buffer.old buffer.new bytes.now result }
{
    arrivals::nitarehpu_part(state, buffer, bytes)
}

#[unsafe(no_mangle)]
pub extern "C" fn nitarehpu_finish(
    state: &[usize],
    buffer: &[u8],
    snippet: &[u8],
    mode: u8,
    style: u8,
    hashes: usize,
    given: u8,
    newline: u8,
    pieces: &mut [u32],
    errors: &mut [u32],
    places: &mut [usize],
    lines: &mut [usize],
    answer: &mut [usize],
) -> u8
    ensures { Closed state.now buffer.now snippet.now (request_of mode style hashes given newline) pieces.old pieces.new errors.old errors.new places.old places.new lines.old lines.new answer.old answer.new result }
{
    arrivals::nitarehpu_finish(
        state, buffer, snippet, mode, style, hashes, given, newline, pieces, errors, places, lines,
        answer,
    )
}
