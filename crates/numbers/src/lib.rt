// The numbers of document 01 by name, and its refusals with their codes in a file of their own. A name means one thing,
// in the width of what it is held against; a number that means two things has two names.
#![tactic(auto)]

pub mod refusal;

// Places for blocks.
pub const PLACES: usize = 64;

// A link to place p is p + 1: the link to the last place.
pub const LAST_LINK: u8 = PLACES as u8;

// The link to no place.
pub const NO_LINK: u8 = 0;

// No block's number, which free places have.
pub const NO_BLOCK: u32 = 0;

// Entries of each of the two lent tables.
pub const TABLE_ENTRIES: usize = 2048;

// L, the largest record, is at least so many bytes.
pub const LEAST_LARGEST: u32 = 64;

// L is at most so many bytes.
pub const GREATEST_LARGEST: u32 = 2048;

// A share is at most the whole line.
pub const GREATEST_SHARE: u32 = 65536;

// The whole line, in 65,536ths: what open and held shares come to at most.
pub const WHOLE_LINE: u64 = GREATEST_SHARE as u64;

// One byte of credit, in parts.
pub const PARTS_PER_BYTE: u64 = 65536;

// Classes run from 0 to this one.
pub const LAST_CLASS: u32 = 16;

// The first number that is no class.
pub const CLASS_END: u32 = LAST_CLASS + 1;

// Classes, each with an order.
pub const CLASSES: usize = CLASS_END as usize;

// No slot begins at this clock or later.
pub const CLOCK_END: u64 = 1 << 62;

// A byte of a log with this offset is past the end of every log, and is not read.
pub const LOG_END: u64 = 1 << 48;
