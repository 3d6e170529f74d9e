// A job drawn in rounds: its draws in all of them, its size, and the symbol of a draw, read at its place in the round.
ghost use Rattle.std.specs.Prelude.{◌≡◌, ◌+◌, ◌*◌, ◌%◌, ◌≤◌};
ghost use Rattle.rules.specs.Basics.{number16};
ghost use Rattle.rules.specs.Job.{draws_at, in_rounds, most_draws};

use crate::number::number16_at;
use rules::{Shape, Unrolled};

// The draws of all rounds. At 64 bits there is room for the product of any two such numbers.
pub fn all_draws(rounds: u32, draws: u16) -> u64
    ensures { result ≡ rounds * draws }
{
    rounds as u64 * draws as u64
}

// The size of this many rounds of a job, where they are not refused.
pub fn in_rounds(shape: Shape, rounds: u32) -> Unrolled
    requires { rounds * shape.draws ≤ most_draws }
    ensures { result ≡ in_rounds rounds shape }
{
    Unrolled {
        slots: shape.slots,
        load_time: shape.load_time,
        rounds,
        round: shape.draws,
        draws: all_draws(rounds, shape.draws) as u16,
    }
}

// The place of a draw in a round of this many draws. In the first round it is the draw's own number, and nothing is divided.
fn place_in_round(draw: u16, round: u16) -> u16
    ensures { result ≡ draw % round }
{
    if draw < round || round == 0 {
        draw
    } else {
        draw % round
    }
}

// The symbol of a draw, by its number through the rounds.
pub fn draw_symbol(job: &[u8], shape: Unrolled, draw: u16) -> u16
    ensures { result ≡ number16 job.now (draws_at shape.slots + 2 * (draw % shape.round)) }
{
    let place = place_in_round(draw, shape.round);
    number16_at(job, 10 + 2 * shape.slots as usize + 2 * place as usize)
}
