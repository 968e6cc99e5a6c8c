// Taking a record (rule 1): its place has one more, and where its lane was empty its block joins its class's order.
#![tactic(auto)]

ghost use Rattle.std.specs.Prelude.{◌≡◌, ◌+◌, ◌-◌, ◌<◌, ◌≤◌, length, get_or, set};
ghost use Rattle.numbers.specs.Codes.{outcome_code};
ghost use Rattle.board.specs.Memory.{orders_of, with_orders, taking_of, with_taking, seen_of};
ghost use Rattle.taking.specs.Taking.{joined_orders, taken_at, TakeNeeds, RecordNeeds, tells_in};
ghost use Rattle.taking.specs.Taking.{recording, recorded_in};

use board::Board;
use numbers::NO_LINK;
use numbers::refusal::Refusal;

// Rules 1 and 5: the block of a place joins the end of the order of class k.
pub fn join_in(b: &mut Board, place: usize, k: usize, time: u64)
    requires { (place < 64) × ((k < 17) × (get_or b.old.tails k 0 ≤ 64)) }
    ensures joined { orders_of b.new ≡ joined_orders (orders_of b.old) place k time }
    ensures rest { b.new ≡ with_orders b.old (orders_of b.new) }
{
    let link = (place + 1) as u8;
    let last = b.tails[k];
    if last == NO_LINK {
        b.heads[k] = link;
    } else {
        b.next[last as usize - 1] = link;
    }
    b.tails[k] = link;
    b.next[place] = NO_LINK;
    b.ready[place] = time;
    b.active = bits::with_bit(b.active, k as u32);
}

// Rule 1: place i has one record more; where its lane was empty, its block joins its class's order, ready at the next
// start above the clock.
fn take_in(b: &mut Board, i: usize)
    requires { TakeNeeds b.old.shares b.old.counts b.old.tails b.old.clock i }
    ensures taken { taking_of b.new ≡ taken_at b.old.shares b.old.clock i (taking_of b.old) }
    ensures rest { b.new ≡ with_taking b.old (taking_of b.new) }
{
    let count = b.counts[i];
    b.counts[i] = count + 1;
    if count != 0 {
        return;
    }
    let k = units::class_of(b.shares[i]);
    let time = units::next_start(b.clock, k);
    join_in(b, i, k as usize, time);
}

// What a taken record tells: its place, its table entry, and how many stood before it in its lane.
#[derive(Clone, Copy, Debug, PartialEq, Eq)]
pub struct Taken {
    pub place: usize,
    pub entry: usize,
    pub before: usize,
}

// Rule 1: a record comes for the block with this number.
pub fn record_in(
    b: &mut Board,
    ids: &mut [u32],
    lens: &mut [u16],
    block: u32,
    id: u32,
    length: u16,
) -> Result<Taken, Refusal>
    requires { RecordNeeds (seen_of b.old) b.old.tails b.old.clock ids.old lens.old }
    ensures recorded { recording (outcome_code result) (tells_in result) (taking_of b.new) ids.new lens.new
        ≡ recorded_in (seen_of b.old) b.old.largest b.old.clock block id length (taking_of b.old) ids.old lens.old }
    ensures rest { b.new ≡ with_taking b.old (taking_of b.new) }
{
    if finding::outside(block, length as u32, b.largest) {
        return Err(Refusal::OutOfRange);
    }
    let Some(place) = finding::find(&b.numbers, block) else {
        return Err(Refusal::UnknownBlock);
    };
    let before = b.counts[place];
    if lanes::depth() <= before {
        return Err(Refusal::LaneFull);
    }
    let entry = lanes::entry(place, b.starts[place], before);
    ids[entry] = id;
    lens[entry] = length;
    take_in(b, place);
    Ok(Taken {
        place,
        entry,
        before: before as usize,
    })
}
