// A job that was taken: its bytes, and the size of what the call asks about. Who has one need not test it again.
ghost use Rattle.std.specs.Prelude.{◌≡◌, IfOk, IsErr, Ok, Err};
ghost use Rattle.std.specs.Result.{IfErr};
ghost use Rattle.rules.specs.Job.{call};
ghost use Rattle.rules.specs.Refusals.{read_call};
ghost use Rattle.laws.specs.Limits.{Limits};

use rules::{Refusal, Unrolled};

#[derive(Clone, Copy)]
pub struct TakenJob<'a> {
    pub bytes: &'a [u8],
    pub shape: Unrolled,
    pub ghost limits: { Limits (call bytes.now shape.rounds) shape },
}

// The refusal of a call that was not taken.
fn refusal_in(reading: Result<Unrolled, Refusal>) -> Refusal
    requires { IsErr reading }
    ensures { reading ≡ Err result }
{
    match reading {
        Err(refusal) => refusal,
        Ok(_) => unreachable!(),
    }
}

impl<'a> TakenJob<'a> {
    // The job in these bytes for this many rounds, or the first refusal of 1 to 5 and 17 that it meets. It is called and does not stand in line:
    // else the run would look up the job's size in what was read, tick by tick.
    #[inline(never)]
    pub fn read(bytes: &'a [u8], rounds: u32) -> Result<TakenJob<'a>, Refusal>
        ensures job { IfOk result (λ j. (read_call (call bytes.now rounds) ≡ Ok j.shape) × (j.bytes ≡ bytes.entry)) }
        ensures refusal { IfErr result (λ r. read_call (call bytes.now rounds) ≡ Err r) }
    {
        let reading = sheet::read_call(bytes, rounds);
        let Ok(shape) = reading else {
            return Err(refusal_in(reading));
        };
        Ok(TakenJob { bytes, shape })
    }
}
