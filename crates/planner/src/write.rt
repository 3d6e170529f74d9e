// The list of a run's loads, written into lent room.
ghost use Rattle.std.specs.Prelude.{◌≡◌, map};
ghost use Rattle.rules.specs.LoadList.{list_bytes};
ghost use Rattle.rules.specs.Refusals.{event_of, lent};
ghost use Rattle.planner.specs.Loads.{Fitting, first_loads};

use crate::loads::{NotedLoad, load_at};
use rules::Event;

// Writes the head of the list, then the event of each of the first `count` loads of the row at its place.
pub fn write_list(room: &mut [u8], count: u16, loads: &[u64])
    requires { Fitting count room.old loads.now }
    ensures { room.new ≡ lent (list_bytes (map event_of (first_loads count loads.now))) room.old }
{
    // The room was found long enough.
    let _ = sheet::put_head(room, count);
    for index in 0..count {
        let NotedLoad { tick, load, .. } = load_at(loads, index as usize);
        let event = Event {
            tick,
            slot: load.slot,
            symbol: load.symbol,
        };
        let _ = sheet::put_event(room, index, event);
    }
}
