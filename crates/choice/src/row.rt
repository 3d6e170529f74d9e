// The draws of a call as one row, copied once so that no search reads the job's bytes.
ghost use Rattle.std.specs.Prelude.{◌≡◌};
ghost use Rattle.rules.specs.Job.{call};
ghost use Rattle.laws.specs.Limits.{Limits};
ghost use Rattle.choice.specs.Rows.{row_of};

use rules::{MOST_DRAWS, Unrolled};

// The draws of all rounds of a job in their order, and zeros after them.
pub fn row_of(job: &[u8], shape: Unrolled) -> [u16; MOST_DRAWS as usize]
    requires { Limits (call job.now shape.rounds) shape }
    ensures { result ≡ row_of (call job.now shape.rounds) }
{
    let mut row = [0; MOST_DRAWS as usize];
    for place in 0..shape.draws {
        row[place as usize] = sheet::draw_symbol(job, shape, place);
    }
    row
}
