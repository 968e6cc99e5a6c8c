// The fields of a board: how many values each has, what stands there, another value in its place, and its word.
ghost use Rattle.std.specs.Prelude.{◌≡◌, ◌≤◌, IfNone};

use crate::tables;
use board::Board;
use numbers::{CLASSES, PLACES};
use std::{fmt, slice};

#[derive(Clone, Copy, Debug, PartialEq, Eq)]
pub enum Field {
    Number,
    Share,
    Deficit,
    Start,
    Count,
    Ready,
    Next,
    Head,
    Tail,
    Held,
    Largest,
    Clock,
    Active,
    Pending,
    Slot,
    Left,
}

// In the order of docs/CASES.md, in which a board is shown and its digest is taken.
pub const FIELDS: [Field; 16] = [
    Field::Number,
    Field::Share,
    Field::Deficit,
    Field::Start,
    Field::Count,
    Field::Ready,
    Field::Next,
    Field::Head,
    Field::Tail,
    Field::Held,
    Field::Largest,
    Field::Clock,
    Field::Active,
    Field::Pending,
    Field::Slot,
    Field::Left,
];

impl Field {
    // How many values: one for each place or each class, or one.
    pub fn entries(self) -> usize
        ensures { (1 ≤ result) × (result ≤ 64) }
    {
        match self {
            Field::Number
            | Field::Share
            | Field::Deficit
            | Field::Start
            | Field::Count
            | Field::Ready
            | Field::Next => PLACES,
            Field::Head | Field::Tail | Field::Held => CLASSES,
            Field::Largest
            | Field::Clock
            | Field::Active
            | Field::Pending
            | Field::Slot
            | Field::Left => 1,
        }
    }

    // Value i, and 0 behind the last.
    pub fn value(self, i: usize, b: &Board) -> u64 {
        match self {
            Field::Number => tables::at(&b.numbers, i),
            Field::Share => tables::at(&b.shares, i),
            Field::Deficit => tables::at(&b.deficits, i),
            Field::Start => tables::at(&b.starts, i),
            Field::Count => tables::at(&b.counts, i),
            Field::Ready => tables::at(&b.ready, i),
            Field::Next => tables::at(&b.next, i),
            Field::Head => tables::at(&b.heads, i),
            Field::Tail => tables::at(&b.tails, i),
            Field::Held => tables::at(&b.held, i),
            Field::Largest => tables::at(slice::from_ref(&b.largest), i),
            Field::Clock => tables::at(slice::from_ref(&b.clock), i),
            Field::Active => tables::at(slice::from_ref(&b.active), i),
            Field::Pending => tables::at(slice::from_ref(&b.pending), i),
            Field::Slot => tables::at(slice::from_ref(&b.slot), i),
            Field::Left => tables::at(slice::from_ref(&b.left.0), i),
        }
    }

    // Another value i. Nothing changes, and the answer is none, where the field has no value i, or is too narrow.
    pub fn set(self, i: usize, v: u64, b: &mut Board) -> Option<()>
        ensures { IfNone result (b.new ≡ b.old) }
    {
        match self {
            Field::Number => put(&mut b.numbers, i, v),
            Field::Share => put(&mut b.shares, i, v),
            Field::Deficit => put(&mut b.deficits, i, v),
            Field::Start => put(&mut b.starts, i, v),
            Field::Count => put(&mut b.counts, i, v),
            Field::Ready => put(&mut b.ready, i, v),
            Field::Next => put(&mut b.next, i, v),
            Field::Head => put(&mut b.heads, i, v),
            Field::Tail => put(&mut b.tails, i, v),
            Field::Held => put(&mut b.held, i, v),
            Field::Largest => put(slice::from_mut(&mut b.largest), i, v),
            Field::Clock => put(slice::from_mut(&mut b.clock), i, v),
            Field::Active => put(slice::from_mut(&mut b.active), i, v),
            Field::Pending => put(slice::from_mut(&mut b.pending), i, v),
            Field::Slot => put(slice::from_mut(&mut b.slot), i, v),
            Field::Left => put(slice::from_mut(&mut b.left.0), i, v),
        }
    }
}

fn put<T: Copy + TryFrom<u64>>(row: &mut [T], i: usize, v: u64) -> Option<()>
where
    T::Error: Drop,
    ensures { IfNone result (row.new ≡ row.old) }
{
    let value = T::try_from(v).ok()?;
    row.get(i)?;
    row[i] = value;
    Some(())
}

impl fmt::Display for Field {
    fn fmt<W: fmt::Write>(&self, f: &mut fmt::Formatter<W>) -> fmt::Result {
        f.write_str(match self {
            Field::Number => "number",
            Field::Share => "share",
            Field::Deficit => "deficit",
            Field::Start => "start",
            Field::Count => "count",
            Field::Ready => "ready",
            Field::Next => "next",
            Field::Head => "head",
            Field::Tail => "tail",
            Field::Held => "held",
            Field::Largest => "largest",
            Field::Clock => "clock",
            Field::Active => "active",
            Field::Pending => "pending",
            Field::Slot => "slot",
            Field::Left => "left",
        })
    }
}
