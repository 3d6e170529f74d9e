// What each plan asks for in a tick, once a load that ends in it is in its slot.
ghost use Rattle.std.specs.Prelude.{◌≡◌, get_or};
ghost use Rattle.rules.specs.Job.{Job};
ghost use Rattle.rules.specs.Display.{State};
ghost use Rattle.rules.specs.Plans.{aggressive};
ghost use Rattle.choice.specs.Ranks.{WithinLimits};
ghost use Rattle.rules.specs.Plans.{plan_number};
ghost use Rattle.choice.specs.Asks.{CanAsk, MayAsk, Quiet, Seen, asks_by, OnDemandBy, Earliest, Asked};

use crate::ranks::{first_greatest, free_first, oldest, ranks_of};
use crate::search::{missing, next_draw, served};
use display::Display;
use rules::{Load, Plan};

// The load of opt that conservative has yet to begin, and the draw that missed.
#[derive(Clone, Copy)]
pub struct Order {
    pub miss: u16,
    pub load: Load,
}

// Plan 0: the first missing draw's symbol into the furthest slot, unless what that slot holds is drawn before. Its rank says so: it is one
// more than the place of that draw.
fn ask_aggressive(slots: &[u16], rest: &[u16]) -> Option<Load>
    requires { WithinLimits slots.now rest.now }
    ensures { (job : Job) (s : State) → Quiet job s slots.now → s.rest ≡ rest.now → result ≡ (aggressive job).asks s }
{
    let place = missing(slots, rest)?;
    let ranks = ranks_of(slots, rest);
    let count = slots.len();
    let slot = first_greatest(&ranks[..count]);
    if ranks[slot as usize] as usize <= place {
        return None;
    }
    Some(Load {
        slot,
        symbol: rest[place],
    })
}

// Plans 2 and 3: the awaited symbol where no slot holds it, into the slot that is then chosen.
fn ask_on_demand<F: FnOnce() -> u8>(slots: &[u16], symbol: u16, choice: F) -> Option<Load>
    requires { F.IsAlwaysCallable choice }
    ensures { OnDemandBy slots.now symbol (λ q. F.post choice q) result }
{
    if served(slots, symbol) {
        return None;
    }
    Some(Load {
        slot: choice(),
        symbol,
    })
}

// What a slot holds. A slot past the last holds 0, so no slot is refused.
fn content_of(slots: &[u16], slot: u8) -> u16
    ensures { result ≡ get_or slots.now slot 0 }
{
    slots.get(slot as usize).copied().unwrap_or(0)
}

// Plan 1: opt's load, as soon as what goes out is not drawn again before the draw that missed.
fn ask_earliest(slots: &[u16], rest: &[u16], next: u16, order: Order) -> Option<Load>
    requires { WithinLimits slots.now rest.now }
    ensures { Earliest slots.now rest.now next order result }
{
    let outgoing = next_draw(rest, content_of(slots, order.load.slot));
    if next as usize + outgoing < order.miss as usize {
        return None;
    }
    Some(order.load)
}

// What the plan asks for with no load under way: lru looks back along the draws made, opt both ways, each other plan along the draws that
// remain.
fn choose(
    plan: Plan,
    slots: &[u16],
    row: &[u16],
    next: u16,
    symbol: u16,
    order: Option<Order>,
) -> Option<Load>
    requires { CanAsk slots.now row.now next }
    ensures { (job : Job) (s : State) → Seen job s slots.now row.now next symbol → result ≡ asks_by (plan_number plan) job order s }
{
    let made = &row[..next as usize];
    let rest = &row[next as usize..];
    match plan {
        Plan::Aggressive => ask_aggressive(slots, rest),
        Plan::Conservative => ask_earliest(slots, rest, next, order?),
        Plan::Opt => ask_on_demand(slots, symbol, || free_first(slots, rest, made)),
        Plan::Lru => ask_on_demand(slots, symbol, || oldest(slots, made)),
    }
}

// What the plan asks for in this tick, with the draws in their row. Where a load is under way nothing is looked for.
pub fn asked_by(
    plan: Plan,
    slots: &[u16],
    d: Display,
    row: &[u16],
    symbol: u16,
    order: Option<Order>,
) -> Option<Load>
    requires { MayAsk slots.now row.now d symbol }
    ensures { Asked (plan_number plan) slots.now row.now d symbol order result }
{
    if d.remaining != 0 {
        return None;
    }
    choose(plan, slots, row, d.next, symbol, order)
}

// The same by the plan's number. As in the rules, each number above 2 is lru.
pub fn asked_of(
    plan: u32,
    slots: &[u16],
    d: Display,
    row: &[u16],
    symbol: u16,
    order: Option<Order>,
) -> Option<Load>
    requires { MayAsk slots.now row.now d symbol }
    ensures { Asked plan slots.now row.now d symbol order result }
{
    let plan = match plan {
        0 => Plan::Aggressive,
        1 => Plan::Conservative,
        2 => Plan::Opt,
        _ => Plan::Lru,
    };
    asked_by(plan, slots, d, row, symbol, order)
}
