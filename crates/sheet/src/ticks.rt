// The rule of ticks in a load list: none is over the limit, and each is above the one before.
ghost use Rattle.std.specs.Prelude.{◌≡◌, drop};
ghost use Rattle.rules.specs.LoadList.{events_in, head_size};
ghost use Rattle.rules.specs.Refusals.{first_bad_tick};
ghost use Rattle.sheet.specs.Size.{Sized};

use crate::load_list::LoadList;
use rules::LAST_TICK;

// The first event that breaks the rule of ticks, or the number of events. (Refusal 9)
pub fn first_bad_tick(list: &[u8], count: u16) -> u32
    requires { Sized count list.now }
    ensures { result ≡ first_bad_tick 0 (events_in count (drop head_size list.now)) }
{
    let read = LoadList { bytes: list, count };
    let mut least: u32 = 0;
    for index in 0..count {
        let tick = read.event(index).tick;
        if LAST_TICK < tick || tick < least {
            return index as u32;
        }
        least = tick + 1;
    }
    count as u32
}
