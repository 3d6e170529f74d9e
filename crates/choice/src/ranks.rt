// The slot that a plan chooses, in two steps: the rank of each slot along a row of draws, and the first slot of the greatest rank. For opt a
// third step looks back, where several symbols are never drawn again.
ghost use Rattle.std.specs.Prelude.{◌≡◌, ◌++◌, reverse, suc, ◌≤◌, length};
ghost use Rattle.rules.specs.Job.{most_draws};
ghost use Rattle.rules.specs.Plans.{rank};
ghost use Rattle.choice.specs.Ranks.{WithinLimits, SomeRanks, Ranks, Greatest, Chosen};

use crate::search::{last_draw, served};
use rules::{FREE, MOST_SLOTS};

// The ranks along the draws that remain. A slot ranks by the place at which its symbol first comes up, where the search for it is left.
// A symbol that does not come up ranks above all that do, and a free slot above all. Each rank is one more than this, since 0 is the rank
// of a slot that no load may go into.
pub fn ranks_of(slots: &[u16], rest: &[u16]) -> [u16; MOST_SLOTS as usize]
    requires { WithinLimits slots.now rest.now }
    ensures { Ranks slots.now rest.now result }
{
    let mut ranks = [0; MOST_SLOTS as usize];
    for (slot, &symbol) in slots.iter().enumerate() {
        let mut at: usize = 0;
        let next = loop {
            if symbol == FREE {
                break rest.len() + 1;
            }
            if rest.len() <= at {
                break at;
            }
            if rest[at] == symbol {
                break at;
            }
            at += 1;
        };
        ranks[slot] = next as u16 + 1;
    }
    ranks
}

// The rank of a slot that holds this, back along the draws made: what was drawn longest ago is furthest.
fn rank_back(symbol: u16, made: &[u16]) -> u16
    requires { length made.now ≤ most_draws }
    ensures { result ≡ suc (rank (reverse made.now) symbol) }
{
    if symbol == FREE {
        return made.len() as u16 + 2;
    }
    last_draw(made, symbol) as u16 + 1
}

// The ranks back along the draws made.
fn ranks_back(slots: &[u16], made: &[u16]) -> [u16; MOST_SLOTS as usize]
    requires { WithinLimits slots.now made.now }
    ensures { Ranks slots.now (reverse made.now) result }
{
    let mut ranks = [0; MOST_SLOTS as usize];
    for (slot, &symbol) in slots.iter().enumerate() {
        ranks[slot] = rank_back(symbol, made);
    }
    ranks
}

// The first slot of the greatest rank.
pub fn first_greatest(ranks: &[u16]) -> u8
    requires { SomeRanks ranks.now }
    ensures { Greatest ranks.now result }
{
    let mut best = 0;
    let mut most = 0;
    for (slot, &rank) in ranks.iter().enumerate() {
        if most < rank {
            most = rank;
            best = slot;
        }
    }
    best as u8
}

// The slot whose content comes up furthest back along the draws made.
pub fn oldest(slots: &[u16], made: &[u16]) -> u8
    requires { WithinLimits slots.now made.now }
    ensures { Chosen slots.now (reverse made.now) result }
{
    let count = slots.len();
    let ages = ranks_back(slots, made);
    first_greatest(&ages[..count])
}

// The slot whose content comes up furthest along the draws that remain and then back along those made. The look back decides only between
// symbols that are never drawn again, so it is left out where there are not two of them, and made for those alone.
pub fn free_first(slots: &[u16], rest: &[u16], made: &[u16]) -> u8
    requires { WithinLimits slots.now rest.now }
    ensures { Chosen slots.now (rest.now ++ reverse made.now) result }
{
    let count = slots.len();
    let ranks = ranks_of(slots, rest);
    let first = first_greatest(&ranks[..count]);
    let never = rest.len() as u16 + 1;
    if ranks[first as usize] != never {
        return first;
    }
    let from = first as usize + 1;
    if !served(&ranks[from..count], never) {
        return first;
    }
    let mut best = first as usize;
    let mut most = last_draw(made, slots[best]);
    for slot in from..count {
        if ranks[slot] == never {
            let ago = last_draw(made, slots[slot]);
            if most < ago {
                most = ago;
                best = slot;
            }
        }
    }
    best as u8
}
