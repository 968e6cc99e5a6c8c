// Blocks: a board made with both tables cleared, and a block that is renamed, opened or closed.
#![tactic(auto)]

ghost use Rattle.std.specs.Prelude.{◌≡◌, ℕ, ◌+◌, ◌-◌, ◌<◌, ◌≤◌, get_or};
ghost use Rattle.numbers.specs.Codes.{outcome_code};
ghost use Rattle.board.specs.Memory.{blocks_of, with_blocks};
ghost use Rattle.board.specs.Leaving.{returned};
ghost use Rattle.blocks.specs.Blocks.{fresh_in, renaming, renamed_in, answered, opened_in};
ghost use Rattle.blocks.specs.Blocks.{held_with, closed_in, CloseNeeds};

use board::Board;
use numbers::refusal::Refusal;
use numbers::{GREATEST_SHARE, NO_BLOCK, WHOLE_LINE};
use operands::Opening;

// ---- making

// A board is made, and both tables are cleared.
pub fn make_in(ids: &mut [u32], lens: &mut [u16], largest: u32) -> Board
    ensures { returned result ids.new lens.new
        ≡ fresh_in ids.old lens.old largest }
{
    ids.fill(0);
    lens.fill(0);
    Board::blank(largest)
}

// ---- renaming, opening, closing

// A block takes another number.
pub fn rename_in(b: &mut Board, old: u32, new: u32) -> Result<(), Refusal>
    ensures renamed { renaming (outcome_code result) b.new.numbers ≡ renamed_in b.old.numbers old new }
    ensures rest { b.new ≡ record b.old { numbers = b.new.numbers } }
{
    if new == NO_BLOCK {
        return Err(Refusal::OutOfRange);
    }
    let Some(place) = finding::find(&b.numbers, old) else {
        return Err(Refusal::UnknownBlock);
    };
    if finding::find(&b.numbers, new).is_some() {
        return Err(Refusal::NumberIsOpen);
    }
    b.numbers[place] = new;
    Ok(())
}

// A block opens at the lowest free place.
pub fn open_in(b: &mut Board, opening: Opening) -> Result<(), Refusal>
    ensures opened { answered (outcome_code result) (blocks_of b.new) ≡ opened_in (blocks_of b.old) opening }
    ensures rest { b.new ≡ with_blocks b.old (blocks_of b.new) }
{
    if finding::outside(opening.number, opening.share, GREATEST_SHARE) {
        return Err(Refusal::OutOfRange);
    }
    if finding::find(&b.numbers, opening.number).is_some() {
        return Err(Refusal::NumberIsOpen);
    }
    let Some(place) = finding::lowest_free(&b.numbers) else {
        return Err(Refusal::NoFreePlace);
    };
    if WHOLE_LINE < arrays::sum(&b.shares) + arrays::sum(&b.held) + opening.share as u64 {
        return Err(Refusal::ShareNotFree);
    }
    b.numbers[place] = opening.number;
    b.shares[place] = opening.share;
    Ok(())
}

// A closed block's share is held with its class's, unless no class is active.
fn hold_in(b: &mut Board, share: u32)
    requires { (1 ≤ share) × ((share ≤ 65536) × ((k : ℕ) → get_or b.old.held k 0 ≤ 65536)) }
    ensures { b.new ≡ record b.old { held = held_with b.old.active share b.old.held } }
{
    if b.active == 0 {
        return;
    }
    let k = units::class_of(share) as usize;
    b.held[k] += share;
}

// A block with an empty lane closes.
pub fn close_in(b: &mut Board, block: u32) -> Result<(), Refusal>
    requires { CloseNeeds b.old.numbers b.old.shares b.old.held }
    ensures closed { answered (outcome_code result) (blocks_of b.new)
        ≡ closed_in b.old.active b.old.counts (blocks_of b.old) block }
    ensures rest { b.new ≡ with_blocks b.old (blocks_of b.new) }
{
    let Some(place) = finding::find(&b.numbers, block) else {
        return Err(Refusal::UnknownBlock);
    };
    if 0 < b.counts[place] {
        return Err(Refusal::LaneNotEmpty);
    }
    hold_in(b, b.shares[place]);
    b.numbers[place] = NO_BLOCK;
    b.shares[place] = 0;
    b.starts[place] = 0;
    Ok(())
}
