// The refusals, one to each row of document 01's table, with what the detail says; and the number and the detail of each.
ghost use Rattle.std.specs.Prelude.{◌≡◌};
ghost use Rattle.rules.specs.Refusing.{refusal_number, refusal_detail};

// Why a call is refused. Events, draws and lines are counted from 0.
#[derive(Clone, Copy)]
pub enum Refusal {
    JobLength,
    JobVersion,
    JobLimits,
    JobSize,
    JobSymbols,
    PlanNumber,
    ShortRoom,
    ListForm,
    EventTick { event: u32 },
    LoadUnderWay { event: u32 },
    NoSuchSlot { event: u32 },
    SymbolHeld { event: u32 },
    EndlessWait { draw: u32 },
    EventLeft { event: u32 },
    PastTheLastTick,
    LineForm { line: u32 },
    Rounds,
    NoSuchDraw,
}

impl Refusal {
    pub fn number(self) -> u32
        ensures { result ≡ refusal_number self }
    {
        match self {
            Refusal::JobLength => 1,
            Refusal::JobVersion => 2,
            Refusal::JobLimits => 3,
            Refusal::JobSize => 4,
            Refusal::JobSymbols => 5,
            Refusal::PlanNumber => 6,
            Refusal::ShortRoom => 7,
            Refusal::ListForm => 8,
            Refusal::EventTick { event: _ } => 9,
            Refusal::LoadUnderWay { event: _ } => 10,
            Refusal::NoSuchSlot { event: _ } => 11,
            Refusal::SymbolHeld { event: _ } => 12,
            Refusal::EndlessWait { draw: _ } => 13,
            Refusal::EventLeft { event: _ } => 14,
            Refusal::PastTheLastTick => 15,
            Refusal::LineForm { line: _ } => 16,
            Refusal::Rounds => 17,
            Refusal::NoSuchDraw => 18,
        }
    }

    // The event, the draw or the line that is refused; 0 where it is none.
    pub fn detail(self) -> u32
        ensures { result ≡ refusal_detail self }
    {
        match self {
            Refusal::EventTick { event } => event,
            Refusal::LoadUnderWay { event } => event,
            Refusal::NoSuchSlot { event } => event,
            Refusal::SymbolHeld { event } => event,
            Refusal::EndlessWait { draw } => draw,
            Refusal::EventLeft { event } => event,
            Refusal::LineForm { line } => line,
            _ => 0,
        }
    }
}
