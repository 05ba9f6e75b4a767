// A part of a text taken into a lent buffer, and what the finish asks of the bytes that were taken.
#![tactic(auto)]

ghost use Rattle.std.specs.Prelude.{◌≡◌, take};
ghost use Rattle.utf8.specs.Choice.{either};
ghost use Rattle.uploads.specs.Parts.{is_unfit, is_too_much, Part};
ghost use Rattle.upload.specs.Asks.{asked_of};

use answer::Asked;
use frame::{TextPlace, TextRange};
use reading::Request;
use uploads::{Taken, Upload};

// Whether the state does not fit the buffer: its count is beyond it, or the buffer has no room for the longest text.
pub fn is_unfit(state: Upload, buffer: &[u8]) -> bool
    ensures { result ≡ is_unfit state buffer.now }
{
    if buffer.len() < state.count {
        return true;
    }
    buffer.len() < 65535
}

// Whether nothing more is written: a part was left out before, or this one would pass the limit.
fn is_past(state: Upload, bytes: &[u8]) -> bool
    ensures { result ≡ either state.over (is_too_much state bytes.now) }
{
    if state.over {
        return true;
    }
    if 65535 < bytes.len() {
        return true;
    }
    65535 - bytes.len() < state.count
}

// Takes a part: writes it after those before it and carries the check on, or remembers that it would pass the limit.
pub fn part(state: Upload, buffer: &mut [u8], bytes: &[u8]) -> Taken
    ensures { Part state buffer.old buffer.new bytes.now result }
{
    if is_unfit(state, buffer) {
        return Taken { number: 16, state };
    }
    let count = state.count;
    let valid = state.valid;
    if is_past(state, bytes) {
        let left = Upload {
            count,
            valid,
            over: true,
        };
        return Taken {
            number: 0,
            state: left,
        };
    }
    let whole = TextRange {
        start: TextPlace(0),
        end: TextPlace(bytes.len()),
    };
    let end = pen::put_range(&mut *buffer, count, bytes, whole);
    let checked = utf8::check_from(&buffer[..end], valid);
    let grown = Upload {
        count: end,
        valid: checked.valid,
        over: false,
    };
    Taken {
        number: 0,
        state: grown,
    }
}

// The bytes that were taken, as far as the buffer goes.
pub fn taken(state: Upload, buffer: &[u8]) -> &[u8]
    ensures { result.now ≡ take state.count buffer.now }
{
    let count = state.count;
    if buffer.len() < count {
        return &buffer[..];
    }
    &buffer[..count]
}

// What the finish asks: the request, with what was carried.
pub fn asked_of(state: Upload, buffer: &[u8], request: Request) -> Asked
    ensures { result ≡ asked_of state buffer.now request }
{
    let unfit = is_unfit(state, buffer);
    Asked {
        request,
        unfit,
        over: state.over,
        checked: true,
        valid: state.valid,
    }
}
