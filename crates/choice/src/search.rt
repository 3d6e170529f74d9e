// The searches of the plans along a row of draws: a symbol's next draw, its last draw, and the first draw that no slot serves.
ghost use Rattle.std.specs.Prelude.{◌≡◌, reverse};
ghost use Rattle.rules.specs.Basics.{stands};
ghost use Rattle.display.specs.Search.{Found};
ghost use Rattle.choice.specs.Rows.{Missed};

use display::slot_of;

// The first of the draws that remain that draws the symbol, or the number of them where none does.
pub fn next_draw(rest: &[u16], symbol: u16) -> usize
    ensures { Found symbol rest.now result }
{
    rest.iter()
        .position(|draw| *draw == symbol)
        .unwrap_or(rest.len())
}

// How many draws ago the symbol was last drawn, 0 for the latest draw made, or the number of draws made where it was not drawn.
pub fn last_draw(made: &[u16], symbol: u16) -> usize
    ensures { Found symbol (reverse made.now) result }
{
    made.iter()
        .rev()
        .position(|draw| *draw == symbol)
        .unwrap_or(made.len())
}

// Whether a slot holds the symbol.
pub fn served(slots: &[u16], symbol: u16) -> bool
    ensures { result ≡ stands symbol slots.now }
{
    slot_of(slots, symbol) < slots.len()
}

// The first of the draws that remain whose symbol is in no slot, if there is one. It is called and does not stand in line: in the run of a plan
// too few registers would be left for its loop.
#[inline(never)]
pub fn missing(slots: &[u16], rest: &[u16]) -> Option<usize>
    ensures { Missed slots.now rest.now result }
{
    rest.iter().position(|draw| !served(slots, *draw))
}
