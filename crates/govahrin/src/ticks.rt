// Draw ticks in lent bytes: how many of them have room, and writing them there.
ghost use Rattle.std.specs.Prelude.{◌≡◌, ◌/◌, min, take};
ghost use Rattle.rules.specs.Job.{most_draws};
ghost use Rattle.rules.specs.Refusals.{tick_bytes, lent};
ghost use Rattle.govahrin.specs.Reports.{ByteRoom};

use rules::MOST_DRAWS;

// The places for ticks that these bytes lend, and no more than the largest job has draws.
pub fn tick_places(bytes: usize) -> usize
    ensures { result ≡ min (bytes / 4) most_draws }
{
    (bytes / 4).min(MOST_DRAWS as usize)
}

// Writes the first ticks of a row, and leaves the bytes after them alone.
pub fn put_ticks(to: &mut [u8], from: &[u32], count: u16)
    requires { ByteRoom count to.old from.now }
    ensures { to.new ≡ lent (tick_bytes (take count from.now)) to.old }
{
    for (place, &tick) in from[..count as usize].iter().enumerate() {
        sheet::put_number32(to, 4 * place, tick);
    }
}
