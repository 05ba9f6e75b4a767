// The call that writes a plain form, for C: that of `plains`, under the name of include/nitarehpu.h. A library exports nothing to C, so a static library stands
// over it.
#![tactic(auto)]

ghost use Rattle.plains.specs.Calls.{Asked};

#[unsafe(no_mangle)]
pub extern "C" fn nitarehpu_plain(text: &[u8], mode: u8, out: &mut [u8], answer: &mut [usize]) -> u8
    ensures { Asked text.now mode out.old out.new answer.old answer.new result }
{
    plains::nitarehpu_plain(text, mode, out, answer)
}
