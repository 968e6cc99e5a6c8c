// Serving: the slot that serves sends its front record.
#![tactic(auto)]

ghost use Rattle.std.specs.Prelude.{◌≡◌, ◌+◌, get_or};
ghost use Rattle.units.specs.Classes.{class_of};
ghost use Rattle.board.specs.Memory.{queues_of, engine_of, with_engine};
ghost use Rattle.slots.specs.Slots.{choice_of, Go, CanBegin, opened};
ghost use Rattle.serving.specs.Serving.{sent_from, lost_from, CanSend, within_in, served_within, CanServe};

use board::Board;
use numbers::NO_LINK;
use numbers::refusal::Refusal;
use slots::Turn;
use units::{Bytes, Parts};

// What a serve tells of the record that it sent: its place and table entry, and the bytes charged for it; the clock at
// which its slot began, whether the slot began with it, and the parts lost where the lane emptied.
#[derive(Clone, Copy)]
pub struct Served {
    pub place: usize,
    pub entry: usize,
    pub bytes: Bytes,
    pub slot_clock: u64,
    pub began: bool,
    pub lost: Parts,
}

// More bytes than any record is charged.
pub const ANY_LENGTH: u64 = 65536;

// Rules 2 and 4: the front record of the open slot's block is sent, and the slot ends or stays open. What was left of a
// slot whose lane emptied is lost.
#[tactic(auto, unfolding(crate::specs::Serving::sent_from, crate::specs::Serving::lost_from))]
fn send(b: &mut Board, lens: &[u16], place: usize) -> Parts
    requires can { CanSend b.old.shares lens.now place (engine_of b.old) }
    requires open { b.old.slot ≡ place + 1 }
    ensures sent { b.new ≡ with_engine b.old (sent_from b.old.shares lens.now place (engine_of b.old)) }
    ensures lost { result.0 ≡ lost_from lens.now place (engine_of b.old) }
{
    let ring = b.starts[place];
    let entry = lanes::entry(place, ring, 0);
    let charge = units::charge(Bytes(u64::from(lens[entry])));
    let on = lanes::onward(ring);
    let count = b.counts[place] - 1;
    b.starts[place] = on;
    b.counts[place] = count;
    let left = b.left;
    let rest = Parts(left.0 - charge.0);
    b.left = rest;
    let k = units::class_of(b.shares[place]) as usize;
    if count == 0 {
        slots::end_empty(b, k);
        return rest;
    }
    let following = lanes::entry(place, on, 0);
    let need = units::charge(Bytes(u64::from(lens[following])));
    if rest.0 < need.0 {
        slots::end_waiting(b, place, k);
    }
    Parts(0)
}

// Rules 2 and 3: the slot that serves: the open one, or one that begins.
#[tactic(auto, unfolding(slots::specs::Slots::opened, slots::specs::Slots::opened_slot))]
fn open_slot(b: &mut Board, turn: Turn)
    requires goes { choice_of (engine_of b.old) ≡ Go turn.place turn.time }
    requires begins { let k = class_of (get_or b.old.shares turn.place 0) in
        b.old.slot ≡ 0 → CanBegin b.old.shares b.old.largest turn.place k (queues_of b.old) }
    ensures { b.new ≡ with_engine b.old (opened b.old.shares b.old.largest turn.place turn.time (engine_of b.old)) }
{
    if b.slot == NO_LINK {
        slots::begin(b, turn);
    }
}

// Rules 2 to 5: one record is served, if it is no longer than so many bytes and a list has room for it.
#[tactic(auto, unfolding(crate::specs::Serving::served_within, crate::specs::Serving::enacted))]
pub fn serve_within(
    b: &mut Board,
    lens: &[u16],
    bytes: Bytes,
    room: usize,
) -> Result<Served, Refusal>
    requires { CanServe b.old.shares lens.now b.old.largest (engine_of b.old) }
    ensures served { within_in result b.new
        ≡ served_within b.old.shares lens.now b.old.largest bytes.0 room (engine_of b.old) }
    ensures rest { b.new ≡ with_engine b.old (engine_of b.new) }
{
    let turn = slots::choose(b)?;
    if room == 0 {
        return Err(Refusal::ListFull);
    }
    let place = turn.place;
    let entry = lanes::entry(place, b.starts[place], 0);
    let charge = units::charged(Bytes(u64::from(lens[entry])));
    if bytes.0 < charge.0 {
        return Err(Refusal::OverBudget);
    }
    let began = b.slot == NO_LINK;
    open_slot(b, turn);
    let lost = send(b, lens, place);
    Ok(Served {
        place,
        entry,
        bytes: charge,
        slot_clock: turn.time,
        began,
        lost,
    })
}
