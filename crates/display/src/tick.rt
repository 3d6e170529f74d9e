// What a tick brings once a load that ends in it is in its slot: the refusal of a load, and the draw or the wait.
ghost use Rattle.std.specs.Prelude.{◌≡◌, not, ◌||◌, ◌≤◌, length, eqb, ltb};
ghost use Rattle.rules.specs.Basics.{stands};
ghost use Rattle.rules.specs.Job.{Job, free, most_slots};
ghost use Rattle.rules.specs.Display.{idle, cause_of, happening_of, stuck};
ghost use Rattle.display.specs.View.{History, view, loading_of, awaiting};
ghost use Rattle.display.specs.Moves.{moved_on, drawn_or_waited};
ghost use Rattle.display.specs.Tick.{Room, CanMove, CanGoOn, asked_refusal, WentOn};

use crate::search::slot_of;
use crate::state::{Display, begin};
use rules::{Cause, FREE, Happening, Load, Refusal, TickRecord};

// What came of a tick that was not refused: its record, and the display after it.
#[derive(Clone, Copy)]
pub struct Ticked {
    pub on_record: TickRecord,
    pub display: Display,
}

// 10. A load is under way.
fn under_way(d: Display) -> bool
    ensures { result ≡ not (idle (loading_of d.remaining d.target d.incoming)) }
{
    d.remaining != 0
}

// 11. There is no such slot.
fn beyond(slots: &[u16], slot: u8) -> bool
    ensures { result ≡ not (ltb slot (length slots.now)) }
{
    slots.len() <= slot as usize
}

// 12. The symbol is no symbol, or a slot holds it.
fn held_or_none(slots: &[u16], symbol: u16) -> bool
    ensures { result ≡ (eqb symbol free || stands symbol slots.now) }
{
    symbol == FREE || slot_of(slots, symbol) < slots.len()
}

// The first refusal of 10 to 12 that a load which is asked for meets, if it meets one. The event is the load's place in the list.
pub fn load_refusal(slots: &[u16], d: Display, asked: Option<Load>) -> Result<(), Refusal>
    ensures { (h : History) (job : Job) → job.slots ≡ length slots.now → result ≡ asked_refusal job asked (view slots.now h d) }
{
    let Some(load) = asked else {
        return Ok(());
    };
    let event = d.loads;
    if under_way(d) {
        return Err(Refusal::LoadUnderWay { event });
    }
    if beyond(slots, load.slot) {
        return Err(Refusal::NoSuchSlot { event });
    }
    if held_or_none(slots, load.symbol) {
        return Err(Refusal::SymbolHeld { event });
    }
    Ok(())
}

fn cause_of(d: Display, symbol: u16) -> Cause
    ensures { result ≡ cause_of (loading_of d.remaining d.target d.incoming) symbol }
{
    if d.remaining == 0 {
        return Cause::Nothing;
    }
    if symbol == d.incoming {
        return Cause::Awaited;
    }
    Cause::Another
}

// A draw of the awaited symbol from the first slot that holds it, or a wait and its cause.
fn happening_of(slots: &[u16], d: Display, symbol: u16) -> Happening
    requires { length slots.now ≤ most_slots }
    ensures { result ≡ happening_of (view slots.now (awaiting symbol) d) }
{
    let slot = slot_of(slots, symbol);
    if slot < slots.len() {
        return Happening::Draw { slot: slot as u8 };
    }
    Happening::Wait(cause_of(d, symbol))
}

fn is_stuck(happening: Happening, done: bool) -> bool
    ensures { result ≡ stuck happening done }
{
    done && matches!(happening, Happening::Wait(Cause::Nothing))
}

fn move_on(d: Display, happening: Happening) -> Display
    requires { Room d }
    ensures { result ≡ moved_on happening d }
{
    match happening {
        Happening::Draw { .. } => d.draw(),
        Happening::Wait(_) => d.wait(),
    }
}

// Step 3 of a tick: the draw or the wait, refused where it would never end. `done` says that no load will be asked for any more.
pub fn draw_or_wait(
    slots: &[u16],
    d: Display,
    asked: Option<Load>,
    symbol: u16,
    done: bool,
) -> Result<Ticked, Refusal>
    requires { CanMove slots.now d }
    ensures { result ≡ drawn_or_waited slots.now d asked symbol done }
{
    let happening = happening_of(slots, d, symbol);
    if is_stuck(happening, done) {
        return Err(Refusal::EndlessWait {
            draw: d.next as u32,
        });
    }
    Ok(Ticked {
        on_record: TickRecord {
            begun: asked,
            happening,
        },
        display: move_on(d, happening),
    })
}

// Steps 2 and 3 of a tick, once a load that ends in it is in its slot: what is asked for begins, unless it is refused, and then comes the draw
// or the wait. Who was asked, a list or a plan, is the only difference between a check's tick and a plan's.
pub fn rest_of_tick(
    slots: &mut [u16],
    d: Display,
    time: u16,
    asked: Option<Load>,
    symbol: u16,
    done: bool,
) -> Result<Ticked, Refusal>
    requires { CanGoOn time slots.old d }
    ensures { WentOn time slots.old slots.new d asked symbol done result }
{
    load_refusal(slots, d, asked)?;
    let begun = begin(slots, d, time, asked);
    draw_or_wait(slots, begun, asked, symbol, done)
}
