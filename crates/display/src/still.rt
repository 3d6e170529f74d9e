// A stretch of ticks that are waits and no more: how far it can reach before a load under way ends, and the display after it.
ghost use Rattle.std.specs.Prelude.{◌≡◌, ◌+◌, ◌-◌, ◌≤◌, min};
ghost use Rattle.display.specs.Still.{passed};

use crate::state::Display;

// The smaller of two numbers of ticks.
pub fn smaller(a: u32, b: u32) -> u32
    ensures { result ≡ min a b }
{
    a.min(b)
}

// The ticks before the one in which the load under way ends; none where no load is under way.
pub fn before_end(d: Display) -> u32
    ensures { result ≡ d.remaining - 1 }
{
    d.remaining.saturating_sub(1) as u32
}

// The display after this number of waits.
pub fn pass_waits(d: Display, ticks: u32) -> Display
    requires { (d.tick + ticks ≤ 4294967295) × (d.waits + ticks ≤ 4294967295) × (d.pause + ticks ≤ 4294967295) }
    ensures { result ≡ passed ticks d }
{
    Display {
        tick: d.tick + ticks,
        waits: d.waits + ticks,
        pause: d.pause + ticks,
        remaining: (d.remaining as u32).saturating_sub(ticks) as u16,
        ..d
    }
}
