// The number of rounds that an argument of the program names in decimal. A program that is given none draws its sheet once.
ghost use Rattle.std.specs.Prelude.{◌≡◌};
ghost use Rattle.report.specs.Rounds.{rounds_in};

use std::env::FillError;
use std::rt::Env;
use std::str;

// std would read a sign and further zeros before the number too.
#[tactic(auto, using(crate::proofs::Digits::by_first_byte))]
fn rounds_in(word: &[u8]) -> Option<u32>
    ensures { result ≡ rounds_in word.now }
{
    let (first, rest) = word.split_first()?;
    if !first.is_ascii_digit() {
        return None;
    }
    if *first == b'0' && !rest.is_empty() {
        return None;
    }
    str::from_utf8(word).ok()?.parse().ok()
}

// The greatest number has 10 digits, so that a longer argument is none; one that is missing means one round.
pub fn rounds_argument<E: Env>(rt: &E, argument: usize) -> Option<u32> {
    let mut word = [0u8; 10];
    match rt.arg(argument, &mut word) {
        Ok(length) => rounds_in(&word[..length]),
        Err(FillError::TooLong) => None,
        Err(FillError::NotPresent) => Some(1),
    }
}
