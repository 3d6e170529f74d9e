// A refusal as the programs say it: the line that other programs read, and a line in words that a compositor understands. Document
// 01, "Refusal numbers", says when each is given.
ghost use Rattle.std.specs.Prelude.{◌≡◌};
ghost use Rattle.report.specs.Refusals.{refused_of};

use std::fmt;

// A refusal by its number and its detail, as a call answers it.
#[derive(Clone, Copy)]
pub struct Refused {
    pub number: u32,
    pub detail: u32,
}

impl Refused {
    // The refusal that a call answers; where the number is 0 it answers none.
    pub fn of(number: u32, detail: u32) -> Option<Refused>
        ensures { result ≡ refused_of number detail }
    {
        if number == 0 {
            return None;
        }
        Some(Refused { number, detail })
    }
}

// The same refusal in words.
#[derive(Clone, Copy)]
pub struct InWords(pub Refused);

impl fmt::Display for Refused {
    fn fmt<W: fmt::Write>(&self, f: &mut fmt::Formatter<W>) -> fmt::Result {
        write!(f, "refused {} {}", self.number, self.detail)
    }
}

impl fmt::Display for InWords {
    fn fmt<W: fmt::Write>(&self, f: &mut fmt::Formatter<W>) -> fmt::Result {
        let Refused { number, detail } = self.0;
        if number < 8 {
            f.write_str(whole(number))
        } else {
            write_run(f, number, detail)
        }
    }
}

// Refusals 1 to 7, of a job, a plan's number or the lent room: they have no detail.
fn whole(number: u32) -> &'static str {
    match number {
        1 => "the job has under 10 bytes, or its length is not the count of the bytes after it",
        2 => "the job's version is not 1",
        3 => "the job has not 1 to 64 slots, a load time of 1 to 1,000 and 0 to 4,096 draws",
        4 => "the job's length does not fit its numbers of slots and draws",
        5 => "a symbol stands in two starting slots, or 65535, the mark of a free slot, is drawn",
        6 => "there are four plans, 0 to 3",
        _ => "the lent room is too short",
    }
}

// Refusals 8 to 18, of a list, a run, a text, the number of rounds or the number of a draw. The detail is the number of an event, a
// draw or a line.
fn write_run<W: fmt::Write>(f: &mut fmt::Formatter<W>, number: u32, detail: u32) -> fmt::Result {
    match number {
        8 => f.write_str("the list's length, version or number of events is wrong"),
        9 => write!(
            f,
            "event {detail} has a tick over 8,388,607 or not above the one before"
        ),
        10 => write!(f, "event {detail} begins while a load is under way"),
        11 => write!(
            f,
            "event {detail} names a slot that the display does not have"
        ),
        12 => write!(
            f,
            "event {detail} loads a symbol that a slot holds, or 65535"
        ),
        13 => write!(
            f,
            "draw {detail} would wait for ever: its symbol is in no slot, no load is under way and no event is left"
        ),
        14 => write!(f, "event {detail} is left when all draws are done"),
        16 => {
            write!(
                f,
                "line {detail} is not tick, slot and symbol in decimal with one blank between and a line feed, or its "
            )?;
            f.write_str("slot is over 255, its symbol over 65535, or it is one line too many")
        }
        17 => f.write_str(
            "the number of rounds is 0, or all rounds together have more than 4,096 draws",
        ),
        18 => f.write_str("the draw number is not below the number of draws in all rounds"),
        _ => f.write_str("the plan would take more than 8,388,607 ticks"),
    }
}
