// A request from the numbers of a call.
ghost use Rattle.std.specs.Prelude.{◌≡◌};
ghost use Rattle.words.specs.Calls.{style_of, request_of};

use reading::Request;

// How a text is to be read. Any mark but 0 is a yes.
pub fn request_of(mode: u8, style: u8, hashes: usize, given: u8, newline: u8) -> Request
    ensures { result ≡ request_of mode style hashes given newline }
{
    Request {
        mode,
        style: style_of(style, hashes),
        given: given != 0,
        newline: newline != 0,
    }
}

#[tactic(auto, unfolding(crate::specs::Calls::style_of, utf8::specs::Choice::pick))]
fn style_of(style: u8, hashes: usize) -> Option<usize>
    ensures { result ≡ style_of style hashes }
{
    (style != 0).then_some(hashes)
}
