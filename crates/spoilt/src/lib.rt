// The spoilt test: lanes, the open slot and the whole test, which is passed exactly by the boards that are not spoilt.
#![tactic(auto)]

ghost use Rattle.std.specs.Prelude.{◌≡◌, ◌<◌, IsOk, length, slice_index};
ghost use Rattle.numbers.specs.Codes.{outcome_code};
ghost use Rattle.spoilt.specs.Test.{tables_whole, length_in_range, lane_in_range, lanes_in_range, slot_open};
ghost use Rattle.spoilt.specs.Test.{slot_in_range, order_rules, sound_test};
ghost use Rattle.spoilt.specs.Early.{early_code};
ghost use Rattle.board.specs.Leaving.{Known};
ghost use Rattle.board.specs.Reading.{Sized};
ghost use Rattle.base.specs.Tests.{every};

use board::Board;
use numbers::refusal::Refusal;
use numbers::{CLOCK_END, LAST_LINK, NO_LINK, PLACES, TABLE_ENTRIES};
use units::{Bytes, Parts};

// Both lent tables have 2,048 entries.
fn tables_whole(ids: &[u32], lens: &[u16]) -> bool
    ensures { result ≡ tables_whole ids.now lens.now }
{
    ids.len() == TABLE_ENTRIES && lens.len() == TABLE_ENTRIES
}

// A waiting length is 1 to L.
#[tactic(auto, unfolding(crate::specs::Test::length_in_range))]
fn length_in_range(largest: u32, len: u16) -> bool
    ensures { result ≡ length_in_range largest len }
{
    (1..=largest).contains(&u32::from(len))
}

// The waiting lengths of place p.
fn lane_in_range(b: &Board, lens: &[u16], p: usize) -> bool
    requires place { p < 64 }
    requires table { length lens.now ≡ 2048 }
    ensures { result ≡ lane_in_range lens.now b.now.largest p (slice_index b.now.starts p)
        (slice_index b.now.counts p) }
{
    let start = b.starts[p];
    (0..b.counts[p]).all(|j| length_in_range(b.largest, lens[lanes::entry(p, start, j)]))
}

// Waiting lengths 1 to L.
fn lanes_in_range(b: &Board, lens: &[u16]) -> bool
    requires { length lens.now ≡ 2048 }
    ensures { result ≡ lanes_in_range lens.now b.now.largest b.now.starts b.now.counts }
{
    (0..PLACES).all(|p| lane_in_range(b, lens, p))
}

// An open slot's block waits, its front fits what is left, that is under 3L bytes, and the slot's clock is below 2^62.
#[tactic(auto, unfolding(crate::specs::Test::slot_open))]
fn slot_open(b: &Board, count: u16, len: u16) -> bool
    ensures { result ≡ slot_open b.now.largest b.now.clock b.now.left.0 count len }
{
    let front = units::charge(Bytes(u64::from(len)));
    let most = units::charge(Bytes(u64::from(b.largest)));
    count != 0 && front <= b.left && b.left < Parts(3 * most.0) && b.clock < CLOCK_END
}

// No slot and nothing left of it; or the mark of a place whose block may serve on.
#[tactic(auto, unfolding(crate::specs::Test::slot_in_range))]
fn slot_in_range(b: &Board, lens: &[u16]) -> bool
    requires { length lens.now ≡ 2048 }
    ensures { result ≡ slot_in_range lens.now b.now.largest b.now.clock b.now.slot b.now.left.0
        b.now.starts b.now.counts }
{
    if b.slot == NO_LINK {
        return b.left == Parts(0);
    }
    if LAST_LINK < b.slot {
        return false;
    }
    let p = usize::from(b.slot - 1);
    slot_open(b, b.counts[p], lens[lanes::entry(p, b.starts[p], 0)])
}

// The rules of the orders, and both class sets as ruled.
fn orders_sound(b: &Board) -> bool
    ensures { result ≡ every (order_rules b.now) }
{
    spoilt_orders::orders_listed(b)
        && spoilt_orders::active_as_ruled(b)
        && spoilt_orders::pending_as_ruled(b)
}

// Whether the board is not spoilt, with these tables.
#[tactic(auto, unfolding(crate::specs::Test::sound_test))]
pub fn sound(b: &Board, ids: &[u32], lens: &[u16]) -> bool
    ensures test { result ≡ sound_test b.now ids.now lens.now }
    ensures sized { Sized b.now }
{
    tables_whole(ids, lens)
        && spoilt_places::size_in_range(b.largest)
        && spoilt_places::numbers_apart(&b.numbers)
        && spoilt_places::places_in_range(b)
        && lanes_in_range(b, lens)
        && spoilt_places::shares_fit(b)
        && spoilt_places::held_while_waiting(b)
        && slot_in_range(b, lens)
        && orders_sound(b)
}

// What comes before all else in a call: TableLength, Spoilt, or nothing where the board is known to be good.
pub fn early(b: &Board, ids: &[u32], lens: &[u16]) -> Result<(), Refusal>
    ensures early { outcome_code result ≡ early_code b.now ids.now lens.now }
    ensures known { IsOk result → Known b.now ids.now lens.now }
{
    if !tables_whole(ids, lens) {
        return Err(Refusal::TableLength);
    }
    if !sound(b, ids, lens) {
        return Err(Refusal::Spoilt);
    }
    Ok(())
}
