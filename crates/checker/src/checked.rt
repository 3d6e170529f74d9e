// What a check comes to: its answer beside the number of draws that it reports.
ghost use Rattle.std.specs.Prelude.{◌≡◌};
ghost use Rattle.checker.specs.Follow.{answer_in, draws_made, ended_at, Ended};

use display::{Display, accepted, refused};
use rules::{Answer, Refusal};

// The answer to a check, and the draws that are handed out with it: all of an accepted list, none of a refused one.
#[derive(Drop)]
pub struct Checked {
    pub answer: Answer,
    pub draws: u16,
}

// What a host is told of a run that ended at a display, or was refused.
pub fn answered(ended: Result<Display, Refusal>) -> Checked
    ensures { result ≡ record { answer = answer_in ended; draws = draws_made ended } }
{
    match ended {
        Ok(d) => Checked {
            answer: accepted(d),
            draws: d.next,
        },
        Err(reason) => Checked {
            answer: refused(reason),
            draws: 0,
        },
    }
}

// The end of a run that was not refused on the way: accepted, unless an event is left. (Refusal 14)
pub fn finish(d: Display, count: u16) -> Result<(), Refusal>
    ensures { Ended count d (ended_at d result) }
{
    if d.loads < count as u32 {
        return Err(Refusal::EventLeft { event: d.loads });
    }
    Ok(())
}
