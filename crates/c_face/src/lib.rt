// The box with each board behind one reference, and so each table: what `c_face_c` exports for programs in C. Each
// function promises what the call or the player below it promises, and asks nothing of a caller but what the types say.
// It passes on what it is given, and answers with the code of what came of it.
#![tactic(auto)]

ghost use Rattle.std.specs.Prelude.{◌≡◌, ◌≤◌, length, drop};
ghost use Rattle.rules.specs.Blocks.{opening};
ghost use Rattle.rules.specs.Calls.{open!, rename!, close!, record! };
ghost use Rattle.board.specs.Leaving.{returned, replied};
ghost use Rattle.calls.specs.Promises.{called, made};
ghost use Rattle.calls.specs.Contract.{burst_now, called_serve, called_burst};
ghost use Rattle.player.specs.Feeding.{piece_in, feed_code};
ghost use Rattle.c_calls.specs.Told.{served_of, bursted_of};
ghost use Rattle.c_calls.specs.Feeding.{FeederFed, FeederFinished};
ghost use Rattle.c_face.specs.Listed.{Listed, Moved};

use board::Board;
use c_calls::{Fed, Feeder, Sent, Total};
use lines::LINE_ROOM;
use numbers::TABLE_ENTRIES;
use numbers::refusal::code_of;
use operands::Opening;
use player::State;
use units::Bytes;

// A board is made, and both tables are cleared; a refusal leaves the board of all zeros. That is `board_made`, which
// would hold a board on the stack if it were called here.
pub fn box_make(
    b: &mut Board,
    ids: &mut [u32; TABLE_ENTRIES],
    lens: &mut [u16; TABLE_ENTRIES],
    largest: u32,
) -> u8
    ensures { returned (replied result b.new) ids.new lens.new
        ≡ made ids.old lens.old largest }
{
    let made = calls::make(ids, lens, largest);
    *b = made.unwrap_or(Board::blank(0));
    code_of(&made)
}

// A block opens, with this number and this share.
pub fn box_open(
    b: &mut Board,
    ids: &[u32; TABLE_ENTRIES],
    lens: &[u16; TABLE_ENTRIES],
    block: u32,
    share: u32,
) -> u8
    ensures { returned (replied result b.new) ids.now lens.now
        ≡ called b.old ids.now lens.now (open! (opening block share)) }
{
    let opening = Opening {
        number: block,
        share,
    };
    code_of(&calls::open(b, ids, lens, opening))
}

// The block with the old number takes the new one.
pub fn box_rename(
    b: &mut Board,
    ids: &[u32; TABLE_ENTRIES],
    lens: &[u16; TABLE_ENTRIES],
    old: u32,
    new: u32,
) -> u8
    ensures { returned (replied result b.new) ids.now lens.now
        ≡ called b.old ids.now lens.now (rename! old new) }
{
    code_of(&calls::rename(b, ids, lens, old, new))
}

// The block with this number closes.
pub fn box_close(
    b: &mut Board,
    ids: &[u32; TABLE_ENTRIES],
    lens: &[u16; TABLE_ENTRIES],
    block: u32,
) -> u8
    ensures { returned (replied result b.new) ids.now lens.now
        ≡ called b.old ids.now lens.now (close! block) }
{
    code_of(&calls::close(b, ids, lens, block))
}

// A record comes for the block with this number.
pub fn box_record(
    b: &mut Board,
    ids: &mut [u32; TABLE_ENTRIES],
    lens: &mut [u16; TABLE_ENTRIES],
    block: u32,
    id: u32,
    length: u16,
) -> u8
    ensures { returned (replied result b.new) ids.new lens.new
        ≡ called b.old ids.old lens.old
        (record! block (record { number = id; bytes = length })) }
{
    code_of(&calls::record(b, ids, lens, block, id, length))
}

// The next record is sent, and C is told of it; after a refusal all that it is told is 0.
pub fn box_serve(
    b: &mut Board,
    ids: &[u32; TABLE_ENTRIES],
    lens: &[u16; TABLE_ENTRIES],
    sent: &mut Sent,
) -> u8
    ensures { returned (served_of result sent.new b.new) ids.now lens.now
        ≡ called_serve b.old ids.now lens.now }
{
    let served = calls::serve(b, ids, lens);
    *sent = served.unwrap_or_default();
    code_of(&served)
}

// Records are sent as long as the next one is no longer than what remains of the bytes and the list has room.
pub fn box_burst(
    b: &mut Board,
    ids: &[u32; TABLE_ENTRIES],
    lens: &[u16; TABLE_ENTRIES],
    bytes: u64,
    list: &mut [u32],
    total: &mut Total,
) -> u8
    ensures { returned (burst_now (bursted_of result total.new b.new) list.new)
        ids.now lens.now
        ≡ called_burst b.old ids.now lens.now bytes list.old }
{
    let bursted = calls::burst(b, ids, lens, Bytes(bytes), list);
    *total = Total {
        count: bursted.count,
        bytes: bursted.bytes.0,
    };
    bursted.stopped.code()
}

// The next fragment of a log: what there is to list of it goes to the front of a lent buffer, and C is told how much of
// the fragment was taken and how much was written.
pub fn box_feed(
    feeder: &mut Feeder,
    ids: &mut [u32; TABLE_ENTRIES],
    lens: &mut [u16; TABLE_ENTRIES],
    fragment: &[u8],
    out: &mut [u8],
    fed: &mut Fed,
) -> u8
    ensures { FeederFed feeder.old ids.old lens.old fragment.now
        out.old result fed.new feeder.new
        ids.new lens.new out.new }
{
    let outcome = c_calls::feed_on(feeder, ids, lens, fragment, out);
    *fed = outcome.unwrap_or(Fed { taken: 0, used: 0 });
    code_of(&outcome)
}

// The end of a log: its last line goes to the front of a lent buffer, unless it is written.
pub fn box_finish(
    feeder: &mut Feeder,
    ids: &[u32; TABLE_ENTRIES],
    lens: &[u16; TABLE_ENTRIES],
    out: &mut [u8],
    fed: &mut Fed,
) -> u8
    ensures { FeederFinished feeder.old ids.now lens.now out.old
        result fed.new feeder.new out.new }
{
    let outcome = c_calls::finish_on(feeder, ids, lens, out);
    *fed = outcome.unwrap_or(Fed { taken: 0, used: 0 });
    code_of(&outcome)
}

// The next piece of a listing whose log is all here: of what is not taken of it, or its last line.
fn next_piece(
    s: &mut State,
    log: &[u8],
    taken: usize,
    ids: &mut [u32],
    lens: &mut [u16],
    piece: &mut [u8],
) -> Fed
    requires { (taken ≤ length log.now) × ((64 ≤ length piece.old) × (feed_code s.old ids.old lens.old ≡ 0)) }
    ensures { Moved s.old ids.old lens.old (drop taken log.now) piece.old
        (piece_in (Ok result) s.new) ids.new lens.new piece.new }
{
    if log.len() <= taken {
        return player::finish(s, ids, lens, piece).unwrap();
    }
    player::feed(s, &log[taken..], ids, lens, piece).unwrap()
}

// The listing of a log, by pieces that each go through a lent buffer; the answer is how many bytes of it were written.
pub fn box_listing(log: &[u8], piece: &mut [u8], out: &mut [u8]) -> usize
    ensures { Listed log.now piece.old out.old result out.new }
{
    let mut ids = [0u32; TABLE_ENTRIES];
    let mut lens = [0u16; TABLE_ENTRIES];
    let mut state = player::begin();
    let mut taken: usize = 0;
    let mut end: usize = 0;
    if piece.len() < LINE_ROOM {
        return 0;
    }
    'pieces: loop {
        let fed = next_piece(&mut state, log, taken, &mut ids, &mut lens, piece);
        let used = fed.used;
        if out.len() - end < used {
            return end;
        }
        end = lines::put_text(out, end, &piece[..used]);
        if state.over {
            return end;
        }
        taken += fed.taken;
    }
}
