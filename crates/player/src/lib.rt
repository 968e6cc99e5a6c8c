// The player of a log that comes in fragments: it is lent one after the other, and writes the listing to lent buffers,
// a line as soon as its field is whole.
#![tactic(auto)]

ghost use Rattle.std.specs.Prelude.{◌≡◌, true, false, IsOk};
ghost use Rattle.numbers.specs.Codes.{outcome_code};
ghost use Rattle.log_bytes.specs.Format.{past_l};
ghost use Rattle.arrays.specs.Lists.{total_of};
ghost use Rattle.player.specs.Feeding.{before_first, feed_code, CanGoOn, piece, piece_in};
ghost use Rattle.player.specs.Feeding.{FeedDone, FeedOf, CloseOf};

use board::Board;
use fragments::Reader;
use lines::LINE_ROOM;
use log_bytes::Event;
use numbers::TABLE_ENTRIES;
use numbers::refusal::Refusal;
use operands::Fed;
use units::Bytes;

// A field has at least so many bytes, and sends one record at most.
const FIELD_BYTES: u64 = 3;

// More bytes than a record is charged.
const SENT_PER_FIELD: u64 = serving::ANY_LENGTH;

// What stands between two calls: the log's reader, and whether its listing is over; the bytes sent so far, and the
// board.
#[derive(Clone, Copy)]
pub struct State {
    pub reader: Reader,
    pub over: bool,
    pub sent: Bytes,
    pub board: Board,
}

// How many records wait.
#[tactic(auto, using(arrays::proofs::Totals::total_plain))]
fn waiting(b: &Board) -> u32
    ensures { result ≡ total_of b.now.counts }
{
    arrays::sum(&b.counts) as u32
}

// Whether a call may go on from a state: not with a table of another length, nor with an offset, kept bytes, a sum or a
// board with which no call leaves one. Where the listing is over nothing but the tables is looked at.
#[tactic(auto, unfolding(crate::specs::Feeding::feed_code, spoilt::specs::Early::early_code))]
fn unready(s: &State, ids: &[u32], lens: &[u16]) -> Result<(), Refusal>
    ensures code { outcome_code result ≡ feed_code s.now ids.now lens.now }
    ensures known { IsOk result → s.now.over ≡ false → CanGoOn s.now ids.now lens.now }
{
    if ids.len() != TABLE_ENTRIES || lens.len() != TABLE_ENTRIES {
        return Err(Refusal::TableLength);
    }
    if s.over {
        return Ok(());
    }
    if !s.reader.is_fit() {
        return Err(Refusal::Spoilt);
    }
    if !log_bytes::past_l(s.reader.stage) {
        return Ok(());
    }
    if s.reader.at / FIELD_BYTES < s.sent.0 / SENT_PER_FIELD {
        return Err(Refusal::Spoilt);
    }
    spoilt::early(&s.board, ids, lens)
}

// The fields after L in turn, as long as there is room for a line. A log that ends here leaves of the state all but the
// mark that it is over, so the fields are played on a copy; and this is kept apart, since the copy is then not there
// while the state is looked at.
#[inline(never)]
fn next_piece(
    s: &mut State,
    fragment: &[u8],
    ids: &mut [u32],
    lens: &mut [u16],
    out: &mut [u8],
) -> Fed
    requires { CanGoOn s.old ids.old lens.old × (past_l s.old.reader.stage ≡ true) }
    ensures { FeedDone s.old ids.old lens.old fragment.now out.old (piece result s.new) ids.new lens.new out.new }
{
    let mut on = *s;
    let mut taken = 0;
    let mut used = 0;
    while LINE_ROOM <= out.len() - used && taken < fragment.len() {
        let read = match on.reader.read_on(&fragment[taken..]) {
            Ok(read) => read,
            Err(end) => {
                let clock = on.board.clock;
                used = fields::show_end(end, clock, on.sent, waiting(&on.board), out, used);
                s.over = true;
                return Fed {
                    taken: fragment.len(),
                    used,
                };
            }
        };
        taken += read.taken;
        if let Some(event) = read.event {
            let sent = on.sent;
            let moved = fields::play_field(event, &mut on.board, ids, lens, sent, out, used);
            used = moved.used;
            on.sent = moved.sent;
        }
    }
    *s = on;
    Fed { taken, used }
}

// The first field: the board is made, or the listing is one line. The piece ends there.
fn first_piece(
    s: &mut State,
    fragment: &[u8],
    ids: &mut [u32],
    lens: &mut [u16],
    out: &mut [u8],
) -> Fed
    requires { CanGoOn s.old ids.old lens.old × (past_l s.old.reader.stage ≡ false) }
    ensures { FeedDone s.old ids.old lens.old fragment.now out.old (piece result s.new) ids.new lens.new out.new }
{
    if out.len() < LINE_ROOM || fragment.is_empty() {
        return Fed { taken: 0, used: 0 };
    }
    let read = match s.reader.read_on(fragment) {
        Ok(read) => read,
        Err(end) => {
            let used = fields::show_end(end, 0, Bytes(0), 0, out, 0);
            s.over = true;
            return Fed {
                taken: fragment.len(),
                used,
            };
        }
    };
    if let Some(event) = read.event {
        // No other field is whole before L.
        let Event::Largest(largest) = event else {
            unreachable!()
        };
        s.sent = Bytes(0);
        s.board = blocks::make_in(ids, lens, largest);
    }
    Fed {
        taken: read.taken,
        used: 0,
    }
}

// The next fragment of a log: what there is to list of it, into a lent buffer.
pub fn feed(
    s: &mut State,
    fragment: &[u8],
    ids: &mut [u32],
    lens: &mut [u16],
    out: &mut [u8],
) -> Result<Fed, Refusal>
    ensures { FeedOf s.old ids.old lens.old fragment.now out.old
        (piece_in result s.new) ids.new lens.new out.new }
{
    unready(s, ids, lens)?;
    if s.over {
        return Ok(Fed {
            taken: fragment.len(),
            used: 0,
        });
    }
    if log_bytes::past_l(s.reader.stage) {
        return Ok(next_piece(s, fragment, ids, lens, out));
    }
    Ok(first_piece(s, fragment, ids, lens, out))
}

// The end of a log: its last line, into a lent buffer, unless it is written. Without room for it nothing is done.
pub fn finish(s: &mut State, ids: &[u32], lens: &[u16], out: &mut [u8]) -> Result<Fed, Refusal>
    ensures { CloseOf s.old ids.now lens.now out.old (piece_in result s.new) out.new }
{
    unready(s, ids, lens)?;
    if s.over || out.len() < LINE_ROOM {
        return Ok(Fed { taken: 0, used: 0 });
    }
    let used = fields::show_end(
        s.reader.end(),
        s.board.clock,
        s.sent,
        waiting(&s.board),
        out,
        0,
    );
    s.over = true;
    Ok(Fed { taken: 0, used })
}

// Where a listing begins: L has not been read, and there is no board yet.
pub fn begin() -> State
    ensures { result ≡ before_first }
{
    State {
        reader: Reader::begin(),
        over: false,
        sent: Bytes(0),
        board: Board::blank(0),
    }
}
