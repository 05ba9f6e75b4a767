// The public calls for programs in other languages on a text that arrives in parts, the state as three numbers. include/nitarehpu.h says the same in C's words.
#![tactic(auto)]

ghost use Rattle.std.specs.Prelude.{◌≡◌, ◌≤◌, length};
ghost use Rattle.utf8.specs.Choice.{pick};
ghost use Rattle.reading.specs.Written.{over};
ghost use Rattle.words.specs.Calls.{is_yes, request_of};
ghost use Rattle.arrivals.specs.Calls.{state_of, state_words, Sent, Closed};

use uploads::Upload;
use words::request::request_of;

// Any number but 0 is a yes.
fn is_yes(number: usize) -> bool
    ensures { result ≡ is_yes number }
{
    if number == 0 { false } else { true }
}

fn marked(yes: bool) -> usize
    ensures { result ≡ pick yes 1 0 }
{
    if yes { 1 } else { 0 }
}

// The state that the first three numbers of a list make.
fn state_of(state: &[usize]) -> Upload
    requires { 3 ≤ length state.now }
    ensures { result ≡ state_of state.now }
{
    let over = is_yes(state[2]);
    Upload {
        count: state[0],
        valid: state[1],
        over,
    }
}

// Its three numbers, over the first of a list.
fn put_state(out: &mut [usize], state: Upload)
    requires { 3 ≤ length out.old }
    ensures { out.new ≡ over (state_words state) out.old }
{
    out[0] = state.count;
    out[1] = state.valid;
    out[2] = marked(state.over);
}

// Takes a part into the buffer; 16 or 0, and 255 where the state's list has no room for three numbers. A refusal changes nothing.
#[unsafe(no_mangle)]
pub extern "C" fn nitarehpu_part(state: &mut [usize], buffer: &mut [u8], bytes: &[u8]) -> u8
    ensures { Sent state.old state.new buffer.old buffer.new bytes.now result }
{
    if state.len() < 3 {
        return 255;
    }
    let before = state_of(state);
    let taken = upload::part(before, buffer, bytes);
    if taken.number != 0 {
        return taken.number;
    }
    let after = taken.state;
    put_state(state, after);
    0
}

// Reads the bytes that were taken into four lists of numbers, by the check that was carried. The answer's eight numbers go to a list of their own; without room for
// them, or for the state's three, the call is refused with 255. A refusal changes no list.
#[unsafe(no_mangle)]
pub extern "C" fn nitarehpu_finish(
    state: &[usize],
    buffer: &[u8],
    snippet: &[u8],
    mode: u8,
    style: u8,
    hashes: usize,
    given: u8,
    newline: u8,
    pieces: &mut [u32],
    errors: &mut [u32],
    places: &mut [usize],
    lines: &mut [usize],
    answer: &mut [usize],
) -> u8
    ensures { Closed state.now buffer.now snippet.now (request_of mode style hashes given newline) pieces.old pieces.new errors.old errors.new places.old places.new lines.old lines.new answer.old answer.new result }
{
    if answer.len() < 8 {
        return 255;
    }
    if state.len() < 3 {
        return 255;
    }
    let before = state_of(state);
    let request = request_of(mode, style, hashes, given, newline);
    let text = upload::taken(before, buffer);
    let asked = upload::asked_of(before, buffer, request);
    let got = export::read_by(text, snippet, asked, pieces, errors, places, lines);
    export::put_answer(answer, got);
    got.number
}
