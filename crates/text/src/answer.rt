// What a call that writes answers: that it wrote, or its refusal.
ghost use Rattle.std.specs.Prelude.{◌≡◌};
ghost use Rattle.text.specs.Found.{told};

use rules::{Refusal, Written};

// Of bytes that were written their number, of a refusal its number and its detail.
pub fn told(outcome: Result<u32, Refusal>) -> Written
    ensures { result ≡ told outcome }
{
    match outcome {
        Ok(size) => Written {
            number: 0,
            detail: 0,
            size,
        },
        Err(refusal) => Written {
            number: refusal.number(),
            detail: refusal.detail(),
            size: 0,
        },
    }
}
