// The public call for programs in other languages: the verdict on a text, as numbers. include/nitarehpu.h says the same in C's words.
#![tactic(auto)]

ghost use Rattle.std.specs.Prelude.{◌≡◌, ◌≤◌, length};
ghost use Rattle.reading.specs.Written.{over};
ghost use Rattle.words.specs.Calls.{request_of};
ghost use Rattle.verdicts.specs.Calls.{Asked, told_of, told_words};

use membership::Verdict;
use words::request::request_of;

// A verdict told in numbers: a refusal's number and place, the broken rule and its piece; what it does not have is 0. Numbers, as C's header has them.
#[derive(Clone, Copy)]
pub struct Told {
    pub number: u8,
    pub place: usize,
    pub rule: u8,
    pub piece: usize,
}

fn told_of(verdict: Verdict) -> Told
    ensures { result ≡ told_of verdict }
{
    match verdict {
        Verdict::Yes => Told {
            number: 0,
            place: 0,
            rule: 0,
            piece: 0,
        },
        Verdict::Broken(rule, piece) => Told {
            number: 0,
            place: 0,
            rule,
            piece,
        },
        Verdict::Refused(number, place) => Told {
            number,
            place,
            rule: 0,
            piece: 0,
        },
    }
}

// Its four numbers, over the first of a list.
fn put_told(out: &mut [usize], told: Told)
    requires { 4 ≤ length out.old }
    ensures { out.new ≡ over (told_words told) out.old }
{
    out[0] = told.number as usize;
    out[1] = told.place;
    out[2] = told.rule as usize;
    out[3] = told.piece;
}

// The verdict's four numbers go to a list of the caller's; without room for them the call is refused with 255. No other list is lent.
#[unsafe(no_mangle)]
pub extern "C" fn nitarehpu_member(
    text: &[u8],
    snippet: &[u8],
    mode: u8,
    style: u8,
    hashes: usize,
    given: u8,
    newline: u8,
    answer: &mut [usize],
) -> u8
    ensures { Asked text.now snippet.now (request_of mode style hashes given newline) answer.old answer.new result }
{
    if answer.len() < 4 {
        return 255;
    }
    let request = request_of(mode, style, hashes, given, newline);
    let verdict = member::judge(text, snippet, request);
    let numbers = told_of(verdict);
    put_told(answer, numbers);
    numbers.number
}
