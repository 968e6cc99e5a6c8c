// The calls of the box, on a board that is changed where it lies and the two lent tables.
#![tactic(auto)]

ghost use Rattle.std.specs.Prelude.{◌≡◌};
ghost use Rattle.rules.specs.Blocks.{meant};
ghost use Rattle.rules.specs.Calls.{open!, rename!, close!, record! };
ghost use Rattle.numbers.specs.Codes.{outcome_code};
ghost use Rattle.calls.specs.Contract.{served_in, good_serve, bursted_in, burst_now, good_burst};
ghost use Rattle.calls.specs.Contract.{called_serve, called_burst};
ghost use Rattle.calls.specs.Promises.{called, made_in, made};
ghost use Rattle.board.specs.Leaving.{returned, replied, Known};

use board::Board;
use numbers::refusal::Refusal;
use numbers::{GREATEST_LARGEST, LEAST_LARGEST, TABLE_ENTRIES};
use operands::Opening;
use units::Bytes;

// What a serve sent: the block, the number and the length of the record, and the slot's clock. It lies in memory as C
// lays it out, since it is what a program in C is told.
#[repr(C)]
#[derive(Clone, Copy, Default)]
pub struct Sent {
    pub block: u32,
    pub number: u32,
    pub length: u16,
    pub clock: u64,
}

// The answer of a burst: how many records it sent, the bytes they total, and the refusal that stopped it.
#[derive(Clone, Copy)]
pub struct Bursted {
    pub count: usize,
    pub bytes: Bytes,
    pub stopped: Refusal,
}

// ---- Serving on a board that is known to be good and isn't tested again

// One serve: it needs room for one record and bytes for any.
fn serve_board(b: &mut Board, ids: &[u32], lens: &[u16]) -> Result<Sent, Refusal>
    requires { Known b.old ids.now lens.now }
    ensures { served_in result b.new ≡ good_serve b.old ids.now lens.now }
{
    let served = serving::serve_within(b, lens, Bytes(serving::ANY_LENGTH), 1)?;
    Ok(Sent {
        block: b.numbers[served.place],
        number: ids[served.entry],
        length: lens[served.entry],
        clock: served.slot_clock,
    })
}

// Serves as long as the next record is no longer than what remains of the bytes and the list has room. A full list is
// told by a serve that is given no room, so the rounds are not those of the list.
fn burst_board(b: &mut Board, ids: &[u32], lens: &[u16], bytes: Bytes, list: &mut [u32]) -> Bursted
    requires { Known b.old ids.now lens.now }
    ensures { burst_now (bursted_in result b.new) list.new
        ≡ good_burst b.old ids.now lens.now bytes.0 list.old }
{
    let mut count: usize = 0;
    let mut total = Bytes(0);
    'rounds: loop {
        let left = Bytes(bytes.0 - total.0);
        match serving::serve_within(b, lens, left, list.len() - count) {
            Ok(served) => {
                total = Bytes(total.0 + served.bytes.0);
                list[count] = ids[served.entry];
                count += 1;
            }
            Err(stopped) => {
                return Bursted {
                    count,
                    bytes: total,
                    stopped,
                };
            }
        }
    }
}

// ---- The public calls

// A block opens, with the number and the share that it is given.
pub fn open(b: &mut Board, ids: &[u32], lens: &[u16], opening: Opening) -> Result<(), Refusal>
    ensures { returned (replied (outcome_code result) b.new) ids.now lens.now
        ≡ called b.old ids.now lens.now (open! (meant opening)) }
{
    spoilt::early(b, ids, lens)?;
    blocks::open_in(b, opening)
}

// The block with the old number takes the new one.
pub fn rename(b: &mut Board, ids: &[u32], lens: &[u16], old: u32, new: u32) -> Result<(), Refusal>
    ensures { returned (replied (outcome_code result) b.new) ids.now lens.now
        ≡ called b.old ids.now lens.now (rename! old new) }
{
    spoilt::early(b, ids, lens)?;
    blocks::rename_in(b, old, new)
}

// The block with this number closes.
pub fn close(b: &mut Board, ids: &[u32], lens: &[u16], block: u32) -> Result<(), Refusal>
    ensures { returned (replied (outcome_code result) b.new) ids.now lens.now
        ≡ called b.old ids.now lens.now (close! block) }
{
    spoilt::early(b, ids, lens)?;
    blocks::close_in(b, block)
}

// A record comes for the block with this number.
pub fn record(
    b: &mut Board,
    ids: &mut [u32],
    lens: &mut [u16],
    block: u32,
    id: u32,
    length: u16,
) -> Result<(), Refusal>
    ensures { returned (replied (outcome_code result) b.new) ids.new lens.new
        ≡ called b.old ids.old lens.old (record! block (record { number = id; bytes = length })) }
{
    spoilt::early(b, ids, lens)?;
    taking::record_in(b, ids, lens, block, id, length)?;
    Ok(())
}

// A board is made, and both tables are cleared; a refusal leaves them. It is lent no board, so it can change none, and
// what it gives where it is refused is `board_made`.
pub fn make(ids: &mut [u32], lens: &mut [u16], largest: u32) -> Result<Board, Refusal>
    ensures { returned (made_in result) ids.new lens.new
        ≡ made ids.old lens.old largest }
{
    if ids.len() != TABLE_ENTRIES || lens.len() != TABLE_ENTRIES {
        return Err(Refusal::TableLength);
    }
    if !(LEAST_LARGEST..=GREATEST_LARGEST).contains(&largest) {
        return Err(Refusal::OutOfRange);
    }
    Ok(blocks::make_in(ids, lens, largest))
}

// The board that a making gives: where it is refused, that of all zeros.
pub fn board_made(made: Result<Board, Refusal>) -> Board
    ensures { result ≡ (made_in made).board }
{
    made.unwrap_or(Board::blank(0))
}

// The next record is sent.
pub fn serve(b: &mut Board, ids: &[u32], lens: &[u16]) -> Result<Sent, Refusal>
    ensures { returned (served_in result b.new) ids.now lens.now
        ≡ called_serve b.old ids.now lens.now }
{
    spoilt::early(b, ids, lens)?;
    serve_board(b, ids, lens)
}

// Records are sent as long as the next one is no longer than what remains of the bytes and the list has room.
pub fn burst(b: &mut Board, ids: &[u32], lens: &[u16], bytes: Bytes, list: &mut [u32]) -> Bursted
    ensures { returned (burst_now (bursted_in result b.new) list.new) ids.now lens.now
        ≡ called_burst b.old ids.now lens.now bytes.0 list.old }
{
    if let Err(stopped) = spoilt::early(b, ids, lens) {
        return Bursted {
            count: 0,
            bytes: Bytes(0),
            stopped,
        };
    }
    burst_board(b, ids, lens, bytes, list)
}
