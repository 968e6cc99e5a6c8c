// The functions of `c_face` for a program in C: each export calls the function of its name there, with the same
// clauses. tests/walks holds the two side by side.
#![tactic(auto)]

ghost use Rattle.std.specs.Prelude.{◌≡◌};
ghost use Rattle.rules.specs.Blocks.{opening};
ghost use Rattle.rules.specs.Calls.{open!, rename!, close!, record! };
ghost use Rattle.board.specs.Leaving.{returned, replied};
ghost use Rattle.calls.specs.Promises.{called, made};
ghost use Rattle.calls.specs.Contract.{burst_now, called_serve, called_burst};
ghost use Rattle.c_calls.specs.Told.{served_of, bursted_of};
ghost use Rattle.c_calls.specs.Feeding.{FeederFed, FeederFinished};
ghost use Rattle.c_face.specs.Listed.{Listed};

use board::Board;
use c_calls::{Fed, Feeder, Sent, Total};
use numbers::TABLE_ENTRIES;

// A board is made, and both tables are cleared; a refusal leaves the board of all zeros.
#[unsafe(no_mangle)]
pub extern "C" fn box_make(
    b: &mut Board,
    ids: &mut [u32; TABLE_ENTRIES],
    lens: &mut [u16; TABLE_ENTRIES],
    largest: u32,
) -> u8
    ensures { returned (replied result b.new) ids.new lens.new
        ≡ made ids.old lens.old largest }
{
    c_face::box_make(b, ids, lens, largest)
}

// A block opens, with this number and this share.
#[unsafe(no_mangle)]
pub extern "C" fn box_open(
    b: &mut Board,
    ids: &[u32; TABLE_ENTRIES],
    lens: &[u16; TABLE_ENTRIES],
    block: u32,
    share: u32,
) -> u8
    ensures { returned (replied result b.new) ids.now lens.now
        ≡ called b.old ids.now lens.now (open! (opening block share)) }
{
    c_face::box_open(b, ids, lens, block, share)
}

// The block with the old number takes the new one.
#[unsafe(no_mangle)]
pub extern "C" fn box_rename(
    b: &mut Board,
    ids: &[u32; TABLE_ENTRIES],
    lens: &[u16; TABLE_ENTRIES],
    old: u32,
    new: u32,
) -> u8
    ensures { returned (replied result b.new) ids.now lens.now
        ≡ called b.old ids.now lens.now (rename! old new) }
{
    c_face::box_rename(b, ids, lens, old, new)
}

// The block with this number closes.
#[unsafe(no_mangle)]
pub extern "C" fn box_close(
    b: &mut Board,
    ids: &[u32; TABLE_ENTRIES],
    lens: &[u16; TABLE_ENTRIES],
    block: u32,
) -> u8
    ensures { returned (replied result b.new) ids.now lens.now
        ≡ called b.old ids.now lens.now (close! block) }
{
    c_face::box_close(b, ids, lens, block)
}

// A record comes for the block with this number.
#[unsafe(no_mangle)]
pub extern "C" fn box_record(
    b: &mut Board,
    ids: &mut [u32; TABLE_ENTRIES],
    lens: &mut [u16; TABLE_ENTRIES],
    block: u32,
    id: u32,
    length: u16,
) -> u8
    ensures { returned (replied result b.new) ids.new lens.new
        ≡ called b.old ids.old lens.old
        (record! block (record { number = id; bytes = length })) }
{
    c_face::box_record(b, ids, lens, block, id, length)
}

// The next record is sent, and C is told of it; after a refusal all that it is told is 0.
#[unsafe(no_mangle)]
pub extern "C" fn box_serve(
    b: &mut Board,
    ids: &[u32; TABLE_ENTRIES],
    lens: &[u16; TABLE_ENTRIES],
    sent: &mut Sent,
) -> u8
    ensures { returned (served_of result sent.new b.new) ids.now lens.now
        ≡ called_serve b.old ids.now lens.now }
{
    c_face::box_serve(b, ids, lens, sent)
}

// Records are sent as long as the next one is no longer than what remains of the bytes and the list has room.
#[unsafe(no_mangle)]
pub extern "C" fn box_burst(
    b: &mut Board,
    ids: &[u32; TABLE_ENTRIES],
    lens: &[u16; TABLE_ENTRIES],
    bytes: u64,
    list: &mut [u32],
    total: &mut Total,
) -> u8
    ensures { returned (burst_now (bursted_of result total.new b.new) list.new)
        ids.now lens.now
        ≡ called_burst b.old ids.now lens.now bytes list.old }
{
    c_face::box_burst(b, ids, lens, bytes, list, total)
}

// The next fragment of a log: what there is to list of it goes to the front of a lent buffer, and C is told how much of
// the fragment was taken and how much was written.
#[unsafe(no_mangle)]
pub extern "C" fn box_feed(
    feeder: &mut Feeder,
    ids: &mut [u32; TABLE_ENTRIES],
    lens: &mut [u16; TABLE_ENTRIES],
    fragment: &[u8],
    out: &mut [u8],
    fed: &mut Fed,
) -> u8
    ensures { FeederFed feeder.old ids.old lens.old fragment.now
        out.old result fed.new feeder.new
        ids.new lens.new out.new }
{
    c_face::box_feed(feeder, ids, lens, fragment, out, fed)
}

// The end of a log: its last line goes to the front of a lent buffer, unless it is written.
#[unsafe(no_mangle)]
pub extern "C" fn box_finish(
    feeder: &mut Feeder,
    ids: &[u32; TABLE_ENTRIES],
    lens: &[u16; TABLE_ENTRIES],
    out: &mut [u8],
    fed: &mut Fed,
) -> u8
    ensures { FeederFinished feeder.old ids.now lens.now out.old
        result fed.new feeder.new out.new }
{
    c_face::box_finish(feeder, ids, lens, out, fed)
}

// The listing of a log, by pieces that each go through a lent buffer; the answer is how many bytes of it were written.
#[unsafe(no_mangle)]
pub extern "C" fn box_listing(log: &[u8], piece: &mut [u8], out: &mut [u8]) -> usize
    ensures { Listed log.now piece.old out.old result out.new }
{
    c_face::box_listing(log, piece, out)
}
