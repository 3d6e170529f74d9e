// The waits after a tick along a list: how many of them bring nothing else, and the display after them all.
ghost use Rattle.std.specs.Prelude.{◌≡◌, ℕ, ◌+◌, ◌<◌, drop, None};
ghost use Rattle.rules.specs.Refusals.{due};
ghost use Rattle.display.specs.Still.{MayRest, Rested};
ghost use Rattle.checker.specs.Follow.{NothingDue, events_along};

use display::{Display, before_end, pass_waits, smaller};
use rules::Happening;
use sheet::LoadList;

// The ticks from this one on before that of the next event.
fn ticks_ahead(list: LoadList<'_>, loads: u32, tick: u32) -> u32
    requires { loads < list.count }
    ensures { (j : ℕ) → j < result → due (drop loads (events_along list.entry.count list.entry.bytes.now)) (tick + j) ≡ None }
{
    list.event(loads as u16).tick.saturating_sub(tick)
}

// How many ticks from this one on are waits and no more, where the awaited symbol is in no slot: up to the tick of the next event, and
// up to the end of the load under way.
fn still_ticks(list: LoadList<'_>, d: Display) -> u32
    ensures { NothingDue (events_along list.entry.count list.entry.bytes.now) d result }
{
    if list.count as u32 <= d.loads {
        return before_end(d);
    }
    let ahead = ticks_ahead(list, d.loads, d.tick);
    if d.remaining == 0 {
        return ahead;
    }
    smaller(ahead, before_end(d))
}

// The display after the waits that follow a tick in which this happened: as far as nothing else can come up, and no further than the
// limit. A draw may be followed by another, and a load that ends in the next tick may bring one, so after these no tick is passed over.
pub fn after_waits(list: LoadList<'_>, d: Display, happening: Happening, limit: u32) -> Display
    requires { MayRest limit d }
    ensures { Rested (NothingDue (events_along list.entry.count list.entry.bytes.now) d) limit happening d result }
{
    match happening {
        Happening::Draw { .. } => d,
        Happening::Wait(_) => {
            if d.remaining == 1 {
                return d;
            }
            pass_waits(d, smaller(limit - d.tick, still_ticks(list, d)))
        }
    }
}
