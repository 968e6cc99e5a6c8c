// The class orders and sets, for the spoilt test: each order is followed once, from its head.
#![tactic(auto)]

ghost use Rattle.std.specs.Prelude.{◌≡◌, Bool, ℕ, ◌<◌, ◌≤◌, ◌^◌, IfSome, slice_index};
ghost use Rattle.bits.specs.Sets.{set_below};
ghost use Rattle.spoilt_orders.specs.Walks.{clock_in_range, of_class, ready_in_range, block_in_range, no_order};
ghost use Rattle.spoilt_orders.specs.Walks.{length_in, length_of, blocks_in_order, orders_listed};
ghost use Rattle.spoilt_orders.specs.Walks.{class_active, class_pending, active_as_ruled, pending_as_ruled};

use board::Board;
use numbers::{CLASS_END, CLOCK_END, LAST_LINK, NO_LINK, PLACES, WHOLE_LINE};

// Clock at most 2^62.
#[tactic(auto, unfolding(crate::specs::Walks::clock_in_range))]
fn clock_in_range(clock: u64) -> bool
    ensures { result ≡ clock_in_range clock }
{
    clock <= CLOCK_END
}

// The share is one of class k: 2^k times it is the whole line at least and under two of it.
#[tactic(auto, unfolding(crate::specs::Walks::of_class))]
fn of_class(k: u32, share: u32) -> bool
    requires { k ≤ 16 }
    ensures { result ≡ of_class k share }
{
    let scaled = u64::from(share) * units::interval(k);
    (WHOLE_LINE..2 * WHOLE_LINE).contains(&scaled)
}

// A ready time is a multiple of 2^k, not above the next start, and not below the one before it.
#[tactic(auto, unfolding(crate::specs::Walks::ready_in_range))]
fn ready_in_range(k: u32, start: u64, least: u64, ready: u64) -> bool
    requires { k ≤ 16 }
    ensures { result ≡ ready_in_range k start least ready }
{
    (ready >> k) << k == ready && (least..=start).contains(&ready)
}

// The block of place p may stand in the order of class k, behind one whose ready time is the least.
#[tactic(auto, unfolding(crate::specs::Walks::block_in_range))]
fn block_in_range(b: &Board, k: u32, start: u64, least: u64, p: usize) -> bool
    requires class { k ≤ 16 }
    requires place { p < 64 }
    ensures { result ≡ block_in_range k start b.now.slot least p (slice_index b.now.shares p)
        (slice_index b.now.counts p) (slice_index b.now.ready p) }
{
    spoilt_places::in_order(p, b.counts[p], b.slot)
        && of_class(k, b.shares[p])
        && ready_in_range(k, start, least, b.ready[p])
}

// The order of class k, followed from its head for at most as many steps as there are places: how many it has, if it
// is an order. A walk that ends meets no place twice, so that no place need be marked.
fn order_length(b: &Board, k: u32) -> Option<usize>
    requires class { k ≤ 16 }
    requires clock { b.now.clock ≤ 2 ^ 62 }
    ensures length { length_in result ≡ length_of b.now k }
    ensures short { IfSome result (λ n. n ≤ 64) }
{
    let start = units::next_start(b.clock, k);
    let mut met = 0;
    let mut h = b.heads[k as usize];
    let mut least = 0;
    let mut last = NO_LINK;
    while h != NO_LINK {
        if met == PLACES || LAST_LINK < h {
            return None;
        }
        let p = usize::from(h - 1);
        if !block_in_range(b, k, start, least, p) {
            return None;
        }
        met += 1;
        least = b.ready[p];
        last = h;
        h = b.next[p];
    }
    if last == b.tails[k as usize] {
        Some(met)
    } else {
        None
    }
}

// How many blocks wait and have not the open slot.
fn blocks_in_order(b: &Board) -> usize
    ensures { result ≡ blocks_in_order b.now.slot b.now.counts }
{
    (0..PLACES)
        .filter(|&p| spoilt_places::in_order(p, b.counts[p], b.slot))
        .count()
}

// Clock at most 2^62; each waiting block once in its own class's order, or in the open slot, and no other block there;
// ready times in range, never falling.
pub fn orders_listed(b: &Board) -> bool
    ensures { result ≡ orders_listed b.now.clock b.now.slot b.now.heads b.now.tails b.now.shares
        b.now.counts b.now.ready b.now.next }
{
    if !clock_in_range(b.clock) {
        return false;
    }
    let mut total = 0;
    for k in 0..CLASS_END {
        let Some(places) = order_length(b, k) else {
            return false;
        };
        total += places;
    }
    total == blocks_in_order(b)
}

// Class k is active: its order has a block, or the open slot's block is of the class.
#[tactic(auto, unfolding(crate::specs::Walks::class_active))]
fn class_active(b: &Board, k: u32) -> bool
    requires { k < 17 }
    ensures { result ≡ class_active b.now.slot b.now.shares b.now.heads k }
{
    b.heads[k as usize] != NO_LINK
        || (b.slot != NO_LINK
            && b.slot <= LAST_LINK
            && of_class(k, b.shares[usize::from(b.slot - 1)]))
}

// Class k is pending: the first block of its order is.
#[tactic(auto, unfolding(crate::specs::Walks::class_pending))]
fn class_pending(b: &Board, k: u32) -> bool
    requires { k < 17 }
    ensures { result ≡ class_pending b.now.clock b.now.ready b.now.heads k }
{
    let h = b.heads[k as usize];
    h != NO_LINK && h <= LAST_LINK && b.ready[usize::from(h - 1)] <= b.clock
}

// The set of the classes that pass.
fn set_of<F: Fn(u32) -> bool>(passes: F) -> u32
    requires { (k : ℕ) → k < 17 → F.pre passes k }
    ensures { (test : ℕ → Bool) → ((k : ℕ) (t : Bool) → k < 17 → F.post passes k t → t ≡ test k)
        → result ≡ set_below 17 test }
{
    let mut set = 0;
    for k in 0..CLASS_END {
        if passes(k) {
            set = bits::with_bit(set, k);
        }
    }
    set
}

// The active classes as ruled.
pub fn active_as_ruled(b: &Board) -> bool
    ensures { result ≡ active_as_ruled b.now.active b.now.slot b.now.shares b.now.heads }
{
    b.active == set_of(|k| class_active(b, k))
}

// The pending classes as ruled.
pub fn pending_as_ruled(b: &Board) -> bool
    ensures { result ≡ pending_as_ruled b.now.pending b.now.clock b.now.ready b.now.heads }
{
    b.pending == set_of(|k| class_pending(b, k))
}
