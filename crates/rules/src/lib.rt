// The words that the rules and the code share: what reading finds, what a tick brings, what a call answers.
// Types and numbers, and the number and the detail of a refusal. What they mean is said in specs/, a file to each section of document 01.
#![tactic(auto)]

mod refusal;

pub use refusal::Refusal;

// The mark of a slot that holds no symbol.
pub const FREE: u16 = 65535;

// The limits of a job: its slots, the ticks of a load, its draws.
pub const MOST_SLOTS: u8 = 64;

pub const MOST_LOAD_TIME: u16 = 1000;

pub const MOST_DRAWS: u16 = 4096;

// The limits of a load list: its events, and the last tick that an event can name.
pub const MOST_EVENTS: u16 = 4096;

pub const LAST_TICK: u32 = 8388607;

// The size of a job: its slots k, its load time F in ticks and its draws n.
#[derive(Clone, Copy)]
pub struct Shape {
    pub slots: u8,
    pub load_time: u16,
    pub draws: u16,
}

// The size of what a call asks about: the slots and the load time of its job, the rounds, the draws of one round, and those of all.
#[derive(Clone, Copy)]
pub struct Unrolled {
    pub slots: u8,
    pub load_time: u16,
    pub rounds: u32,
    pub round: u16,
    pub draws: u16,
}

// The plans, in the order of their numbers.
#[derive(Clone, Copy)]
pub enum Plan {
    Aggressive,
    Conservative,
    Opt,
    Lru,
}

// An event of a load list: at this tick this slot begins to load this symbol.
#[derive(Clone, Copy)]
pub struct Event {
    pub tick: u32,
    pub slot: u8,
    pub symbol: u16,
}

// A load that begins in a tick.
#[derive(Clone, Copy)]
pub struct Load {
    pub slot: u8,
    pub symbol: u16,
}

// The loader: idle, or at work on a load. `left` counts the ticks that pass before the one in which the load ends.
#[derive(Clone, Copy)]
pub enum Loading {
    Idle,
    Under { left: u16, slot: u8, symbol: u16 },
}

// Why a tick is a wait: the awaited symbol is being loaded, another symbol is, or nothing is.
#[derive(Clone, Copy)]
pub enum Cause {
    Awaited,
    Another,
    Nothing,
}

// What happens in a tick: a draw from a slot, or a wait with its cause.
#[derive(Clone, Copy)]
pub enum Happening {
    Draw { slot: u8 },
    Wait(Cause),
}

// A tick on record: the load begun in it, if one was, beside what happened.
#[derive(Clone, Copy)]
pub struct TickRecord {
    pub begun: Option<Load>,
    pub happening: Happening,
}

// What a plan or a check answers: number 0 and the model's counts, or a refusal's number and detail and no counts.
#[repr(C)]
#[derive(Clone, Copy)]
pub struct Answer {
    pub number: u32,
    pub detail: u32,
    pub elapsed: u32,
    pub waits: u32,
    pub loads: u32,
    pub longest: u32,
}

// What a call that writes into lent room answers: number 0 and the bytes written, or a refusal's number and detail and no bytes.
#[repr(C)]
#[derive(Clone, Copy)]
pub struct Written {
    pub number: u32,
    pub detail: u32,
    pub size: u32,
}

// The waits before a draw in three parts: while its own symbol was loading, while another was, while nothing was.
#[derive(Clone, Copy)]
pub struct Parts {
    pub own: u32,
    pub another: u32,
    pub nothing: u32,
}

// What a run tells of a draw: the event that last brought its symbol into a slot, or none where it is there from the start; the event that
// last took it out of one, or none; and the waits before the draw. Events are counted from 0.
#[derive(Clone, Copy)]
pub struct Account {
    pub brought: Option<u32>,
    pub taken: Option<u32>,
    pub waits: Parts,
}

// Why a draw waited: number 0 and the account of it, or a refusal's number and detail and the account that nothing is known of.
#[derive(Clone, Copy)]
pub struct Reason {
    pub number: u32,
    pub detail: u32,
    pub account: Account,
}

// For a host in C, where an event would be and there is none.
pub const NO_EVENT: u32 = 4294967295;

// The same for a host in C, in numbers alone. Of a refusal the five after the detail are 0.
#[repr(C)]
#[derive(Clone, Copy)]
pub struct PlainReason {
    pub number: u32,
    pub detail: u32,
    pub brought: u32,
    pub taken: u32,
    pub own: u32,
    pub another: u32,
    pub nothing: u32,
}
