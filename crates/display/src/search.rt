// The search for the slot that holds a symbol.
ghost use Rattle.display.specs.Search.{Found};

// The first slot that holds the symbol, or the number of slots where none does. Every slot is looked at each time, from the last to the
// first, and the loop has no way out but its end: the search takes as long whichever slot holds the symbol, and where none does. Two
// finds take turns, `found` of the slot looked at last and of every second slot after it, `other` of the rest: so no look has to wait for
// the one before it.
pub fn slot_of(slots: &[u16], symbol: u16) -> usize
    ensures { Found symbol slots.now result }
{
    let mut found = slots.len();
    let mut other = slots.len();
    let mut slot = slots.len();
    while 0 < slot {
        slot -= 1;
        let met = if slots[slot] == symbol { slot } else { other };
        other = found;
        found = met;
    }
    if found < other { found } else { other }
}
