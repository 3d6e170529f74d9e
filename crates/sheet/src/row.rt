// Rows of symbols, two bytes each, from a place of a job on: whether a symbol is in one, and whether one is in it twice.
ghost use Rattle.std.specs.Prelude.{◌≡◌, ◌+◌, ◌*◌, drop};
ghost use Rattle.rules.specs.Basics.{stands};
ghost use Rattle.rules.specs.Job.{symbols};
ghost use Rattle.rules.specs.Refusals.{doubled};

use crate::number::number16_at;
use rules::FREE;

pub fn stands_in(s: &[u8], from: u32, count: u16, symbol: u16) -> bool
    ensures { result ≡ stands symbol (symbols count (drop from s.now)) }
{
    (0..count as usize).any(|place| number16_at(s, from as usize + 2 * place) == symbol)
}

pub fn doubled_in(s: &[u8], from: u16, count: u16) -> bool
    ensures { result ≡ doubled (symbols count (drop from s.now)) }
{
    for place in 0..count {
        let at = from as u32 + 2 * place as u32;
        let symbol = number16_at(s, at as usize);
        if symbol != FREE && stands_in(s, at + 2, count - place - 1, symbol) {
            return true;
        }
    }
    false
}
