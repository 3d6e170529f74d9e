// What a call answers: to a run that was accepted, and to a refusal. Every answer of a plan and of a check is made here.
ghost use Rattle.std.specs.Prelude.{◌≡◌, List, ℕ};
ghost use Rattle.rules.specs.Display.{going, refused};
ghost use Rattle.rules.specs.Refusals.{answer_of};
ghost use Rattle.rules.specs.Refusing.{refusal_number, refusal_detail};
ghost use Rattle.display.specs.View.{History, view};

use crate::state::Display;
use rules::{Answer, Refusal};

// A refusal has its number and its detail, and no counts.
pub fn refusal(number: u32, detail: u32) -> Answer
    ensures { result ≡ answer_of (refused number detail) }
{
    Answer {
        number,
        detail,
        elapsed: 0,
        waits: 0,
        loads: 0,
        longest: 0,
    }
}

// The same of a refusal as the library knows it, before a host is told its number.
pub fn refused(reason: Refusal) -> Answer
    ensures { result ≡ answer_of (refused (refusal_number reason) (refusal_detail reason)) }
{
    refusal(reason.number(), reason.detail())
}

// An accepted run that ended at this display has its counts.
pub fn accepted(d: Display) -> Answer
    ensures { (slots : List ℕ) (h : History) → result ≡ answer_of (going (view slots h d)) }
{
    Answer {
        number: 0,
        detail: 0,
        elapsed: d.tick,
        waits: d.waits,
        loads: d.loads,
        longest: d.longest,
    }
}
