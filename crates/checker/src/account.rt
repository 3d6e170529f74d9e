// The account of a draw: what a turn of the run adds to it.
ghost use Rattle.std.specs.Prelude.{◌≡◌, cond, ◌&&◌, eqb, ◌-◌, drop};
ghost use Rattle.rules.specs.Refusals.{due};
ghost use Rattle.rules.specs.Why.{untold, brought_in, more_waits, waits_in};
ghost use Rattle.display.specs.View.{loading_of};
ghost use Rattle.display.specs.Moves.{landed_in};
ghost use Rattle.checker.specs.Follow.{events_along};
ghost use Rattle.checker.specs.Accounts.{going_out, taken_of, turn_told, Countable, MayTell};

use crate::follow::asked_of;
use display::Display;
use rules::{Account, Cause, FREE, Happening, Load, Parts, TickRecord};
use sheet::LoadList;

// Before the first tick nothing is told.
pub fn untold() -> Account
    ensures { result ≡ untold }
{
    Account {
        brought: None,
        taken: None,
        waits: Parts {
            own: 0,
            another: 0,
            nothing: 0,
        },
    }
}

// A load ends in the tick that comes, and this is its slot.
fn ends_in(d: Display, slot: u8) -> bool
    ensures { result ≡ (eqb d.remaining 1 && eqb d.target slot) }
{
    d.remaining == 1 && d.target == slot as u16
}

// What the load that is asked for takes out: what its slot holds once a load that ends in this tick is in its slot. Past the last slot
// it is 0, as every read past an end is in the rules; such a load is refused.
fn taken_by(held: &[u16], d: Display, asked: Option<Load>) -> u16
    ensures { result ≡ going_out asked (landed_in d held.now) }
{
    let Some(load) = asked else {
        return FREE;
    };
    match held.get(load.slot as usize) {
        None => 0,
        Some(_) if ends_in(d, load.slot) => d.incoming,
        Some(symbol) => *symbol,
    }
}

// The same of the load that the list asks for in this tick.
pub fn going_out(list: LoadList<'_>, held: &[u16], d: Display) -> u16
    ensures { result ≡ going_out (due (drop d.loads (events_along list.entry.count list.entry.bytes.now)) d.tick) (landed_in d held.now) }
{
    taken_by(held, d, asked_of(list, d.loads, d.tick))
}

// A load of the symbol that ends in the tick that comes has brought it: it is the event begun last.
fn brought_in(earlier: Option<u32>, d: Display, symbol: u16) -> Option<u32>
    ensures { result ≡ brought_in symbol (loading_of d.remaining d.target d.incoming) d.loads earlier }
{
    if d.remaining == 1 && d.incoming == symbol {
        Some(d.loads.saturating_sub(1))
    } else {
        earlier
    }
}

// The event that began took the symbol out where that is what its slot held.
fn taken_in(
    earlier: Option<u32>,
    begun: Option<Load>,
    out: u16,
    loads: u32,
    symbol: u16,
) -> Option<u32>
    ensures { result ≡ taken_of symbol begun out loads earlier }
{
    match begun {
        Some(_) if out == symbol => Some(loads),
        _ => earlier,
    }
}

// This many waits of one cause.
fn more_waits(waits: Parts, cause: Cause, ticks: u32) -> Parts
    requires { Countable ticks waits }
    ensures { result ≡ more_waits ticks cause waits }
{
    match cause {
        Cause::Awaited => Parts {
            own: waits.own + ticks,
            ..waits
        },
        Cause::Another => Parts {
            another: waits.another + ticks,
            ..waits
        },
        Cause::Nothing => Parts {
            nothing: waits.nothing + ticks,
            ..waits
        },
    }
}

// The waits of a turn of this many ticks: all of one cause, or none where it draws.
fn waits_in(waits: Parts, happening: Happening, ticks: u32) -> Parts
    requires { Countable ticks waits }
    ensures { result ≡ waits_in ticks happening waits }
{
    match happening {
        Happening::Draw { .. } => waits,
        Happening::Wait(cause) => more_waits(waits, cause, ticks),
    }
}

// The account after a turn from this display on, in which `out` is what the load that began in it took out, and which lasted until the
// tick `later`.
pub fn turn_told(
    account: Account,
    draw: u32,
    symbol: u16,
    d: Display,
    out: u16,
    on_record: TickRecord,
    later: u32,
) -> Account
    requires { MayTell d.tick later account }
    ensures { result ≡ turn_told draw symbol d out on_record (later - d.tick) account }
{
    Account {
        brought: brought_in(account.brought, d, symbol),
        taken: taken_in(account.taken, on_record.begun, out, d.loads, symbol),
        waits: if d.next as u32 == draw {
            waits_in(account.waits, on_record.happening, later - d.tick)
        } else {
            account.waits
        },
    }
}
