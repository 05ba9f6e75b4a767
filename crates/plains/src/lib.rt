// The public call for programs in other languages: a text's plain form, its answer as numbers. include/nitarehpu.h says the same in C's words.
#![tactic(auto)]

ghost use Rattle.std.specs.Prelude.{◌≡◌, ◌≤◌, length};
ghost use Rattle.reading.specs.Written.{over};
ghost use Rattle.plains.specs.Calls.{Asked, told_words};

use tidiness::Tidied;

// The answer's four numbers, over the first of a list.
fn put_told(answer: &mut [usize], told: Tidied)
    requires { 4 ≤ length answer.old }
    ensures { answer.new ≡ over (told_words told) answer.old }
{
    answer[0] = told.number as usize;
    answer[1] = told.place;
    answer[2] = told.bytes;
    answer[3] = told.arguments;
}

// The plain form goes to a lent output, the four numbers to a list of the caller's; without room for them the call is refused with 255.
#[unsafe(no_mangle)]
pub extern "C" fn nitarehpu_plain(text: &[u8], mode: u8, out: &mut [u8], answer: &mut [usize]) -> u8
    ensures { Asked text.now mode out.old out.new answer.old answer.new result }
{
    if answer.len() < 4 {
        return 255;
    }
    let told = tidies::tidy(text, mode, out);
    put_told(answer, told);
    told.number
}
