// A placeholder that is told, written whatever is wrong in it.
ghost use Rattle.std.specs.Prelude.{◌≡◌, ◌+◌, ◌*◌, ◌≤◌, ◌<◌, length, MatchOption};
ghost use Rattle.frame.specs.Bounds.{Small};
ghost use Rattle.quick.specs.Tellings.{spec_of};
ghost use Rattle.words.specs.Laid.{laid};
ghost use Rattle.words.specs.Layout.{spec_words};
ghost use Rattle.told.specs.Told.{ToldAndPut};

use crate::parts::{put_bare, put_told_fill, put_told_head, put_told_named, put_told_type};
use frame::Frame;
use passing::after::after_star;
use quick::{PlaceholderTold, SpecTold};
use words::{align_word, bit, put4, sign_word};

// The spec from after its colon.
fn put_spec(
    out: &mut [u32],
    k: usize,
    text: &[u8],
    frame: Frame,
    at: usize,
    next: usize,
    spec: SpecTold,
)
    requires { Small text.now frame × (k + 32 ≤ length out.old) × (spec.width.end < 65536) }
    ensures { out.new ≡ laid out.old k (spec_words (spec_of text.now frame at next spec)) }
{
    let align = spec.align;
    let sign = spec.sign;
    let width = spec.width;
    put_told_fill(&mut *out, k, text, frame, at, spec.fill);
    put4(
        &mut *out,
        k + 4,
        align_word(align),
        sign_word(sign),
        bit(spec.alternate),
        bit(spec.zero),
    );
    put_told_named(
        &mut *out,
        k + 8,
        text,
        frame,
        spec.from,
        spec.from,
        width,
        next,
    );
    put_told_named(
        &mut *out,
        k + 16,
        text,
        frame,
        width.end,
        width.end + 1,
        spec.precision,
        next,
    );
    put_told_type(out, k + 24, text, frame, spec.typed);
}

// The placeholder whose opening brace stands at `brace`, told and written as the n-th piece. What is not told is not written.
pub fn write_placeholder(
    out: &mut [u32],
    n: usize,
    text: &[u8],
    frame: Frame,
    brace: usize,
    next: usize,
) -> Option<PlaceholderTold>
    requires { Small text.now frame × (brace < length text.now) × (next < 0xFFFFE) × (40 * n + 40 ≤ length out.old) }
    ensures { MatchOption result (out.new ≡ out.old) (ToldAndPut text.now frame brace next (40 * n) out.old out.new) }
{
    let told = quick::whole::tell(text, brace + 1)?;
    let spec = told.spec;
    let after = after_star(spec.precision, next);
    if !told.colon {
        put_bare(out, n, text, frame, brace, told, after);
        return Some(told);
    }
    let k = 40 * n;
    put_spec(&mut *out, k + 8, text, frame, told.to + 1, next, spec);
    put_told_head(out, k, text, frame, brace, told, after);
    Some(told)
}
