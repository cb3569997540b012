// The numbers of the format (S3.2): tags, lengths of content, where things stand in a field, sizes of fields. `specs/Format.antt` has the
// same numbers as definitions, and where the two differ, a proof fails.

// Tags, which are bytes of the format and so numbers here too; a junction's is that of its form, plain or counted.
pub const HEAD_TAG: u8 = 1;

pub const TERMINAL_TAG: u8 = 2;

pub const PLAIN_TAG: u8 = 3;

pub const ACTION_TAG: u8 = 4;

pub const COUNTED_TAG: u8 = 5;

// The tag of the head of a draft, whose findings may lie anywhere.
pub const DRAFT_TAG: u8 = 6;

// Lengths of content.
pub const HEAD_LENGTH: u32 = 5;

pub const TERMINAL_LENGTH: usize = 9;

pub const PLAIN_LENGTH: usize = 6;

pub const COUNTED_LENGTH: usize = 7;

pub const COST_BYTES: usize = 4;

pub const SUCCESSOR_BYTES: usize = 2;

pub const MIN_ACTION_LENGTH: usize = COST_BYTES + SUCCESSOR_BYTES;

pub const MAX_ACTION_LENGTH: usize = COST_BYTES + SUCCESSOR_BYTES * super::MAX_SUCCESSORS;

// Where a field's length, that length's second byte and its content stand in it, and what the content has.
pub const LENGTH_IN: usize = 1;

pub const LOW_LENGTH_IN: usize = 2;

pub const CONTENT_IN: usize = 3;

pub const KIND_IN: usize = 3;

pub const STATES_IN: usize = 4;

pub const START_IN: usize = 6;

pub const TERMINAL_COST_IN: usize = 3;

pub const TERMINAL_VALUE_IN: usize = 7;

pub const DECISION_VALUE_IN: usize = 3;

pub const COUNT_IN: usize = 9;

pub const ACTION_COST_IN: usize = 3;

pub const SUCCESSORS_IN: usize = CONTENT_IN + COST_BYTES;

// How far behind its value a stage's mark stands, and a junction's chosen check.
pub const MARK_BEHIND: usize = 4;

pub const CHOSEN_BEHIND: usize = 5;

// Sizes of whole fields; a junction's checks are fields of their own behind it.
pub const HEAD_SIZE: usize = 8;

pub const TERMINAL_SIZE: usize = CONTENT_IN + TERMINAL_LENGTH;

pub const PLAIN_SIZE: usize = CONTENT_IN + PLAIN_LENGTH;

pub const COUNTED_SIZE: usize = CONTENT_IN + COUNTED_LENGTH;

// The bytes of the two kinds, and of a settled stage's mark.
pub const WORST: u8 = 0;

pub const WHOLE: u8 = 1;

pub const SOLVED: u8 = 1;
