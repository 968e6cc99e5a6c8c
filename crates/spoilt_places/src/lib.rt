// The rules of the places, for the spoilt test: numbers, shares, rings, deficits and zeros. Each clause is
// decided by one function, and none asks anything of its caller.
#![tactic(auto)]

ghost use Rattle.std.specs.Prelude.{◌≡◌, ◌<◌};
ghost use Rattle.spoilt_places.specs.Ranges.{size_in_range, times_found, number_apart, numbers_apart};
ghost use Rattle.spoilt_places.specs.Ranges.{number_in_range, share_in_range, ring_in_range, in_order};
ghost use Rattle.spoilt_places.specs.Ranges.{deficit_in_range, place_now};
ghost use Rattle.spoilt_places.specs.Ranges.{free_is_zero, unused_is_zero, place_in_range, places_in_range};
ghost use Rattle.spoilt_places.specs.Ranges.{shares_fit, none_held, held_while_waiting};

use board::Board;
use numbers::{
    CLASSES, GREATEST_LARGEST, GREATEST_SHARE, LEAST_LARGEST, NO_BLOCK, NO_LINK, PLACES, WHOLE_LINE,
};
use units::{Bytes, Parts};

// What the board's arrays say of one place: a row of them, which C lays out array by array.
#[derive(Clone, Copy)]
pub struct PlaceNow {
    pub number: u32,
    pub share: u32,
    pub start: u16,
    pub count: u16,
    pub deficit: Parts,
    pub ready: u64,
    pub next: u8,
}

// What the arrays say of place p.
fn place_now(b: &Board, p: usize) -> PlaceNow
    requires { p < 64 }
    ensures { result ≡ place_now b.now p }
{
    PlaceNow {
        number: b.numbers[p],
        share: b.shares[p],
        start: b.starts[p],
        count: b.counts[p],
        deficit: Parts(b.deficits[p]),
        ready: b.ready[p],
        next: b.next[p],
    }
}

// L in range.
#[tactic(auto, unfolding(crate::specs::Ranges::size_in_range))]
pub fn size_in_range(largest: u32) -> bool
    ensures { result ≡ size_in_range largest }
{
    (LEAST_LARGEST..=GREATEST_LARGEST).contains(&largest)
}

// How many places have the number: no early end, so that many are compared at once.
#[tactic(auto, unfolding(crate::specs::Ranges::times_found))]
fn times_found(numbers: &[u32; PLACES], n: u32) -> u32
    ensures { result ≡ times_found numbers.now n }
{
    let mut found = 0;
    for m in numbers {
        found += u32::from(*m == n);
    }
    found
}

// A number but 0 stands at one place only.
#[tactic(auto, unfolding(crate::specs::Ranges::number_apart))]
fn number_apart(numbers: &[u32; PLACES], n: u32) -> bool
    ensures { result ≡ number_apart numbers.now n }
{
    n == NO_BLOCK || times_found(numbers, n) == 1
}

// Open block numbers distinct.
pub fn numbers_apart(numbers: &[u32; PLACES]) -> bool
    ensures { result ≡ numbers_apart numbers.now }
{
    numbers.iter().all(|&n| number_apart(numbers, n))
}

// Open block numbers in range.
#[tactic(auto, unfolding(crate::specs::Ranges::number_in_range))]
fn number_in_range(x: PlaceNow) -> bool
    ensures { result ≡ number_in_range x }
{
    x.share == 0 || 1 <= x.number
}

// Shares in range.
#[tactic(auto, unfolding(crate::specs::Ranges::share_in_range))]
fn share_in_range(x: PlaceNow) -> bool
    ensures { result ≡ share_in_range x }
{
    x.share <= GREATEST_SHARE
}

// Start and count in range.
#[tactic(auto, unfolding(crate::specs::Ranges::ring_in_range))]
fn ring_in_range(x: PlaceNow) -> bool
    ensures { result ≡ ring_in_range x }
{
    let depth = lanes::depth();
    x.start < depth && x.count <= depth
}

// The block of place p waits and has not the open slot.
#[tactic(auto, unfolding(crate::specs::Ranges::in_order))]
pub fn in_order(p: usize, count: u16, slot: u8) -> bool
    ensures { result ≡ in_order p count slot }
{
    count != 0 && (slot == NO_LINK || usize::from(slot - 1) != p)
}

// Deficits under L bytes, and 0 for empty lanes and the open slot's block.
#[tactic(auto, unfolding(crate::specs::Ranges::deficit_in_range))]
fn deficit_in_range(largest: u32, queued: bool, x: PlaceNow) -> bool
    ensures { result ≡ deficit_in_range largest queued x }
{
    let most = units::charge(Bytes(u64::from(largest)));
    x.deficit < most && (queued || x.deficit == Parts(0))
}

// All not in use 0: a free place.
#[tactic(auto, unfolding(crate::specs::Ranges::free_is_zero))]
fn free_is_zero(x: PlaceNow) -> bool
    ensures { result ≡ free_is_zero x }
{
    0 < x.share || (x.number == NO_BLOCK && x.start == 0 && x.count == 0 && x.deficit == Parts(0))
}

// All not in use 0: a ready time and a link outside an order.
#[tactic(auto, unfolding(crate::specs::Ranges::unused_is_zero))]
fn unused_is_zero(queued: bool, x: PlaceNow) -> bool
    ensures { result ≡ unused_is_zero queued x }
{
    queued || (x.ready == 0 && x.next == NO_LINK)
}

// The rules of one place.
#[tactic(auto, unfolding(crate::specs::Ranges::place_in_range))]
fn place_in_range(largest: u32, slot: u8, p: usize, x: PlaceNow) -> bool
    ensures { result ≡ place_in_range largest slot p x }
{
    let queued = in_order(p, x.count, slot);
    number_in_range(x)
        && share_in_range(x)
        && ring_in_range(x)
        && deficit_in_range(largest, queued, x)
        && free_is_zero(x)
        && unused_is_zero(queued, x)
}

// Every place.
pub fn places_in_range(b: &Board) -> bool
    ensures { result ≡ places_in_range b.now }
{
    (0..PLACES).all(|p| place_in_range(b.largest, b.slot, p, place_now(b, p)))
}

// Open plus held shares at most 65,536.
#[tactic(auto, unfolding(crate::specs::Ranges::shares_fit))]
pub fn shares_fit(b: &Board) -> bool
    ensures { result ≡ shares_fit b.now.shares b.now.held }
{
    arrays::sum(&b.shares) + arrays::sum(&b.held) <= WHOLE_LINE
}

// No share is held.
fn none_held(held: &[u32; CLASSES]) -> bool
    ensures { result ≡ none_held held.now }
{
    held.iter().all(|&share| share == 0)
}

// Held shares 0 if none waits.
#[tactic(auto, unfolding(crate::specs::Ranges::held_while_waiting))]
pub fn held_while_waiting(b: &Board) -> bool
    ensures { result ≡ held_while_waiting b.now.active b.now.held }
{
    b.active != 0 || none_held(&b.held)
}
