// Why the box refuses a call: each reason with its line of document 01's table, in the order in which the checks are
// made, and the code by which C and a case file know it.
ghost use Rattle.std.specs.Prelude.{◌≡◌};
ghost use Rattle.numbers.specs.Codes.{refusal_code, outcome_code};

#[derive(Clone, Copy, Debug, PartialEq, Eq)]
pub enum Refusal {
    // A lent table hasn't 2,048 entries.
    TableLength,
    // The board is spoilt.
    Spoilt,
    // No block waits.
    NoBlockWaits,
    // L, block number, share or length outside its range.
    OutOfRange,
    // No open block has that number.
    UnknownBlock,
    // An open block has the new number, itself included.
    NumberIsOpen,
    // All 64 places are taken.
    NoFreePlace,
    // The share exceeds the free share.
    ShareNotFree,
    // The lane holds 32 records.
    LaneFull,
    // The lane is not empty.
    LaneNotEmpty,
    // A block waits, no slot is open, and the slot would begin at 2^62 or later.
    ClockSpent,
    // The list is full.
    ListFull,
    // The next record exceeds the bytes remaining.
    OverBudget,
}

// The code of a call that is done.
pub const DONE: u8 = 0;

impl Refusal {
    pub fn code(self) -> u8
        ensures { result ≡ refusal_code self }
    {
        match self {
            Refusal::TableLength => 3,
            Refusal::Spoilt => 2,
            Refusal::NoBlockWaits => 1,
            Refusal::OutOfRange => 4,
            Refusal::UnknownBlock => 6,
            Refusal::NumberIsOpen => 5,
            Refusal::NoFreePlace => 7,
            Refusal::ShareNotFree => 8,
            Refusal::LaneFull => 9,
            Refusal::LaneNotEmpty => 10,
            Refusal::ClockSpent => 11,
            Refusal::ListFull => 14,
            Refusal::OverBudget => 13,
        }
    }
}

// The code of what came of a call.
pub fn code_of<T>(outcome: &Result<T, Refusal>) -> u8
    ensures { result ≡ outcome_code outcome.now }
{
    match outcome {
        Ok(_) => DONE,
        Err(refusal) => refusal.code(),
    }
}
