// The call that judges, for C: that of `verdicts`, under the name of include/nitarehpu.h. A library exports nothing to C, so a static library stands over it.
#![tactic(auto)]

ghost use Rattle.words.specs.Calls.{request_of};
ghost use Rattle.verdicts.specs.Calls.{Asked};

#[unsafe(no_mangle)]
pub extern "C" fn nitarehpu_member(
    text: &[u8],
    snippet: &[u8],
    mode: u8,
    style: u8,
    hashes: usize,
    given: u8,
    newline: u8,
    answer: &mut [usize],
) -> u8
    ensures { Asked text.now snippet.now (request_of mode style hashes given newline) answer.old answer.new result }
{
    verdicts::nitarehpu_member(text, snippet, mode, style, hashes, given, newline, answer)
}
