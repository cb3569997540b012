// The limits and types that the code and the definitions of specs/ share.
#![tactic(auto)]

pub mod format; // format.rt: tags, lengths, offsets and sizes of fields
pub mod refusal; // refusal.rt: the questions, and a refusal by one of them

// Limits: those of `specs/Limits.antt`.
// The most stages of a sheet, and the fewest entries of its index table (S4.1, S4.3).
pub const MAX_STATES: usize = 4096;

// The fewest and the most bytes of a sheet (S4.2).
pub const MIN_BYTES: usize = 17;

pub const MAX_BYTES: usize = 60000;

// The most checks of a junction, and the most findings of a check (S3.3, S3.2).
pub const MAX_ACTIONS: usize = 16;

pub const MAX_SUCCESSORS: usize = 16;

// The largest cost of a check or an ending (S4.5).
pub const MAX_COST: u32 = 1000000;

// The ceiling (S2.7), and the same as a number of 64 bits, which sums are compared with.
pub const CEILING: u32 = 1000000000;

pub const LONG_CEILING: u64 = CEILING as u64;

// The largest value, which is written for none: there is no complete plan (S2.11).
pub const NO_PLAN: u32 = CEILING + 1;

// How a call ended. `specs/Report.antt` gives the number of each case (S7.1). A refusal holds its number, and not a `Refusal`, since
// `ldfs::refusal` answers for every number.
#[derive(Clone, Copy)]
pub enum Outcome {
    Refused(u32),
    Settled,
    Over,
    Stopped,
    None,
}

// What a call reports: its outcome; the start's value, the passes begun and the raises made, 0 for all three when refused; and the
// budget, the number of raises that it was given (S7.2, S7.5).
#[derive(Clone, Copy)]
pub struct Answer {
    pub outcome: Outcome,
    pub price: u64,
    pub passes: u64,
    pub raises: u64,
    pub budget: u64,
}
