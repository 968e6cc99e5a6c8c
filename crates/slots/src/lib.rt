// Slots (rules 2 to 5): the clock goes on, the next class is chosen, a slot begins and ends.
#![tactic(auto)]

ghost use Rattle.std.specs.Prelude.{◌≡◌, ◌+◌, ◌^◌, ◌<◌, ◌≤◌, get_or};
ghost use Rattle.units.specs.Classes.{class_of};
ghost use Rattle.board.specs.Memory.{queues_of};
ghost use Rattle.slots.specs.Slots.{turned_of, with_turned, turned, links_of, with_links, left_links};
ghost use Rattle.slots.specs.Slots.{link_to, still_pending, still_active, chosen_class, slot_clock, choice, choice_in};
ghost use Rattle.slots.specs.Slots.{CanChoose, CanBegin, began_at, with_slot, ended_empty, with_empty_end};
ghost use Rattle.slots.specs.Slots.{ended_waiting, with_waiting_end};

use board::Board;
use numbers::refusal::Refusal;
use numbers::{CLASSES, CLOCK_END, NO_LINK};
use units::{Bytes, Parts};

// What is served next: the place, and the clock of its slot.
#[derive(Clone, Copy)]
pub struct Turn {
    pub place: usize,
    pub time: u64,
}

// The first block of class k's order leaves it.
#[tactic(auto, unfolding(crate::specs::Slots::left_links))]
fn leave(b: &mut Board, place: usize, k: usize)
    requires { (place < 64) × (k < 17) }
    ensures { b.new ≡ with_links b.old (left_links place k (links_of b.old)) }
{
    let behind = b.next[place];
    b.next[place] = NO_LINK;
    b.heads[k] = behind;
    if behind == NO_LINK {
        b.tails[k] = NO_LINK;
    }
}

// The clock goes on: of each class of which a start is passed the held share goes, and the class is pending if its
// order has a block. Starts of a class are starts of every lower one, so the first class of which none is passed is the
// last to look at.
#[tactic(auto, using(crate::proofs::Cases::turns), unfolding(crate::specs::Slots::turned))]
fn advance(b: &mut Board, to: u64)
    ensures { b.new ≡ with_turned b.old to (turned b.old.clock to b.old.heads (turned_of b.old)) }
{
    let from = b.clock;
    b.clock = to;
    for k in 0..CLASSES {
        if from >> k == to >> k {
            return;
        }
        b.held[k] = 0;
        if b.heads[k] != NO_LINK {
            b.pending = bits::with_bit(b.pending, k as u32);
        }
    }
}

// The place that a link leads to.
fn place_at(link: u8) -> Option<usize>
    ensures { link_to result ≡ link }
{
    usize::from(link).checked_sub(1)
}

// The pending classes when the first block of class k's order left it: k stays if the next one is due.
#[tactic(auto, unfolding(crate::specs::Slots::still_pending))]
fn still_pending(b: &Board, k: usize) -> u32
    requires { (k < 17) × (get_or b.now.heads k 0 ≤ 64) }
    ensures { result ≡ still_pending b.now.pending k b.now.clock b.now.heads b.now.ready }
{
    match place_at(b.heads[k]) {
        Some(first) if b.ready[first] <= b.clock => b.pending,
        _ => bits::without_bit(b.pending, k as u32),
    }
}

// The active classes when a block of class k that was in no order waits no more: k stays if its order has a block.
#[tactic(auto, unfolding(crate::specs::Slots::still_active))]
fn still_active(b: &Board, k: usize) -> u32
    requires { k < 17 }
    ensures { result ≡ still_active b.now.active k b.now.heads }
{
    if b.heads[k] == NO_LINK {
        return bits::without_bit(b.active, k as u32);
    }
    b.active
}

// Rule 3: the class that is served where no slot is open.
#[tactic(auto, unfolding(crate::specs::Slots::chosen_class))]
fn chosen_class(b: &Board) -> u32
    ensures { result ≡ chosen_class b.now.active b.now.pending }
{
    if b.pending == 0 {
        return bits::lowest(b.active);
    }
    bits::lowest(b.pending)
}

// Rule 3: the clock at which a slot of class k begins, which goes to the class's next start if none is pending.
#[tactic(auto, unfolding(crate::specs::Slots::slot_clock))]
fn slot_clock(b: &Board, k: u32) -> u64
    requires { (k < 17) × (b.now.clock ≤ 2 ^ 62) }
    ensures { result ≡ slot_clock b.now.clock b.now.pending k }
{
    if b.pending == 0 {
        return units::next_start(b.clock, k);
    }
    b.clock
}

// Rules 2 and 3, with nothing changed: whose record is next and at which clock.
#[tactic(auto, unfolding(crate::specs::Slots::choice))]
pub fn choose(b: &Board) -> Result<Turn, Refusal>
    requires { CanChoose b.now.clock b.now.active b.now.pending b.now.slot b.now.heads }
    ensures { choice_in result ≡ choice b.now.clock b.now.active b.now.pending b.now.slot b.now.heads }
{
    if let Some(place) = place_at(b.slot) {
        return Ok(Turn {
            place,
            time: b.clock,
        });
    }
    if b.active == 0 {
        return Err(Refusal::NoBlockWaits);
    }
    let k = chosen_class(b);
    let time = slot_clock(b, k);
    if CLOCK_END <= time {
        return Err(Refusal::ClockSpent);
    }
    let place = usize::from(b.heads[k as usize]) - 1;
    Ok(Turn { place, time })
}

// Rule 3: a slot begins at a clock: its block leaves the order of its class, and its deficit goes into the slot.
#[tactic(auto, using(units::proofs::Classes::class_le), unfolding(crate::specs::Slots::began_at))]
pub fn begin(b: &mut Board, turn: Turn)
    requires { let k = class_of (get_or b.old.shares turn.place 0) in
        CanBegin b.old.shares b.old.largest turn.place k (queues_of b.old) }
    ensures { let k = class_of (get_or b.old.shares turn.place 0) in
        let begun = began_at b.old.shares b.old.largest turn.place k turn.time
        b.old.clock b.old.pending (queues_of b.old) in
        b.new ≡ with_slot b.old turn.place turn.time begun }
{
    let place = turn.place;
    let class = units::class_of(b.shares[place]);
    let credit = units::credit(b.shares[place], class, Bytes(u64::from(b.largest)));
    let owed = Parts(b.deficits[place]);
    b.slot = (place + 1) as u8;
    b.left = Parts(owed.0 + credit.0);
    b.deficits[place] = 0;
    let k = class as usize;
    advance(b, turn.time);
    leave(b, place, k);
    b.ready[place] = 0;
    b.pending = still_pending(b, k);
}

// Rules 4 and 5: the slot of a block of class k that waits no more ends.
#[tactic(auto, unfolding(crate::specs::Slots::ended_empty))]
pub fn end_empty(b: &mut Board, k: usize)
    requires { (k < 17) × (b.old.clock < 2 ^ 62) }
    ensures { let end = ended_empty k b.old.clock b.old.active b.old.pending b.old.heads b.old.held in
        b.new ≡ with_empty_end b.old end }
{
    let clock = b.clock;
    advance(b, clock + 1);
    b.active = still_active(b, k);
    if b.active == 0 {
        b.held = [0; CLASSES];
    }
    b.slot = NO_LINK;
    b.left = Parts(0);
}

// Rules 4 and 5: the slot of a block that still waits ends: it joins its order again, and what is left is its deficit.
#[tactic(auto, unfolding(crate::specs::Slots::ended_waiting))]
pub fn end_waiting(b: &mut Board, place: usize, k: usize)
    requires { (place < 64) × ((k < 17) × ((b.old.clock < 2 ^ 62) × (get_or b.old.tails k 0 ≤ 64))) }
    ensures { let end = ended_waiting place k b.old.left.0 b.old.clock b.old.active b.old.pending (queues_of b.old) in
        b.new ≡ with_waiting_end b.old end }
{
    let clock = b.clock;
    b.deficits[place] = b.left.0;
    let time = units::next_start(clock, k as u32);
    taking::join_in(b, place, k, time);
    advance(b, clock + 1);
    b.slot = NO_LINK;
    b.left = Parts(0);
}
