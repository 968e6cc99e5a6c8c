// The report of a log that comes in fragments: it is lent one after the other, and played. Where it has ended, a line
// is written for each block that is open there, to lent buffers; `full`, `broken N` and `long` are written alone.
#![tactic(auto)]

ghost use Rattle.std.specs.Prelude.{◌≡◌, true, false, ℕ, ◌+◌, ◌^◌, ◌≤◌, ◌<◌, length, IsOk};
ghost use Rattle.numbers.specs.Codes.{outcome_code};
ghost use Rattle.log_bytes.specs.Format.{past_l};
ghost use Rattle.lines.specs.Text.{Written};
ghost use Rattle.accounts.specs.Promises.{Small};
ghost use Rattle.counting.specs.Counting.{tallies_of, account_now};
ghost use Rattle.report_play.specs.Playing.{one_line};
ghost use Rattle.reporting.specs.Shown.{line_at, has_stopped, is_alone, PlacesShown};
ghost use Rattle.reporting.specs.Feeding.{before_first, feed_code, CanGoOn, piece, piece_in, FeedDone, FeedOf, CloseOf};

use board::Board;
use fragments::Reader;
use lines::Line;
use log_bytes::{End, Event};
use numbers::refusal::Refusal;
use numbers::{PARTS_PER_BYTE, PLACES, TABLE_ENTRIES};
use operands::Fed;
use report_lines::REPORT_ROOM;
use report_play::{Ended, State};
use units::Parts;

// ---- what is shown

// Whether a report is one line: the counting has stopped, or the log does not end whole.
fn is_alone(full: bool, end: End) -> bool
    ensures { result ≡ is_alone full end }
{
    full || !matches!(end, End::Whole)
}

// That line, at the front; a whole log that is counted to its end has none.
#[tactic(auto, unfolding(report_play::specs::Playing::one_line))]
fn put_end(full: bool, end: End, out: &mut [u8]) -> usize
    requires { 128 ≤ length out.old }
    ensures { Written out.old 0 (one_line full end) result out.new × (result ≤ 128) }
{
    if full {
        return report_lines::put_full(out, 0);
    }
    match end {
        End::Whole => 0,
        End::Broken(offset) => Line::Broken { offset }.put(out, 0),
        End::Long => Line::Long.put(out, 0),
    }
}

// The line of a place, from the number and the account of its block; a free place has none.
fn put_place(s: &State, place: usize, out: &mut [u8], used: usize) -> usize
    requires place_inside { place < 64 }
    requires account_small { Small (account_now (tallies_of s.now.counts) place) }
    requires used_in_bounds { used + 128 ≤ length out.old }
    ensures { Written out.old used (line_at s.now.board (tallies_of s.now.counts) place) result out.new
        × (result ≤ used + 128) }
{
    if s.board.shares[place] == 0 {
        return used;
    }
    let account = s.counts.accounts[place];
    let got = Parts(account.bytes.0 * PARTS_PER_BYTE);
    report_lines::put_account(
        out,
        used,
        s.board.numbers[place],
        account.slots,
        account.credit,
        account.bytes,
        report_lines::difference(got, account.credit),
        account.lost,
    )
}

// The lines of the places that are not shown yet, as long as there is room for one.
fn show_places(s: &mut State, out: &mut [u8]) -> Fed
    requires going { s.old.over ≡ false }
    requires accounts_small { (p : ℕ) → Small (account_now (tallies_of s.old.counts) p) }
    requires room { 128 ≤ length out.old }
    ensures { PlacesShown s.old out.old (piece result s.new) out.new }
{
    let mut used = 0;
    for place in s.shown..PLACES {
        if out.len() - used < REPORT_ROOM {
            s.shown = place;
            return Fed { taken: 0, used };
        }
        used = put_place(s, place, out, used);
    }
    s.over = true;
    Fed { taken: 0, used }
}

// ---- a call

// Whether a call may go on from a state: it is refused for the tables' lengths, and as spoilt for an offset, kept
// bytes, a board or counts with which no call leaves one. Where the report is over nothing but the tables is looked at.
fn early(s: &State, ids: &[u32], lens: &[u16]) -> Result<(), Refusal>
    ensures code { outcome_code result ≡ feed_code s.now ids.now lens.now }
    ensures known { IsOk result → s.now.over ≡ false → CanGoOn s.now ids.now lens.now }
{
    if ids.len() != TABLE_ENTRIES || lens.len() != TABLE_ENTRIES {
        return Err(Refusal::TableLength);
    }
    if s.over {
        return Ok(());
    }
    if !s.reader.is_fit() {
        return Err(Refusal::Spoilt);
    }
    if !log_bytes::past_l(s.reader.stage) {
        return Ok(());
    }
    spoilt::early(&s.board, ids, lens)?;
    if !counting::counts_fit(&s.board, &s.counts) {
        return Err(Refusal::Spoilt);
    }
    Ok(())
}

// The fields after L in turn. Nothing is written, unless the log is broken or long in this fragment.
fn next_piece(
    s: &mut State,
    fragment: &[u8],
    ids: &mut [u32],
    lens: &mut [u16],
    out: &mut [u8],
) -> Fed
    requires { CanGoOn s.old ids.old lens.old × ((past_l s.old.reader.stage ≡ true) × (128 ≤ length out.old)) }
    ensures { FeedDone s.old ids.old lens.old fragment.now out.old (piece result s.new) ids.new lens.new out.new }
{
    let mut used = 0;
    if let Err(Ended { end, full }) = report_play::play_on(s, fragment, ids, lens) {
        s.over = true;
        used = put_end(full, end, out);
    }
    Fed {
        taken: fragment.len(),
        used,
    }
}

// The first field: the board is made, or the report is one line. The piece ends there.
fn first_piece(
    s: &mut State,
    fragment: &[u8],
    ids: &mut [u32],
    lens: &mut [u16],
    out: &mut [u8],
) -> Fed
    requires { CanGoOn s.old ids.old lens.old
        × ((past_l s.old.reader.stage ≡ false) × ((128 ≤ length out.old) × (0 < length fragment.now))) }
    ensures { FeedDone s.old ids.old lens.old fragment.now out.old (piece result s.new) ids.new lens.new out.new }
{
    let read = match s.reader.read_on(fragment) {
        Ok(read) => read,
        Err(end) => {
            s.over = true;
            return Fed {
                taken: fragment.len(),
                used: put_end(false, end, out),
            };
        }
    };
    if let Some(event) = read.event {
        // No other field is whole before L.
        let Event::Largest(largest) = event else {
            unreachable!()
        };
        s.board = blocks::make_in(ids, lens, largest);
        s.counts = counting::blank();
    }
    Fed {
        taken: read.taken,
        used: 0,
    }
}

// The next fragment of a log. Without room for a line, or without a byte, nothing is done.
pub fn feed(
    s: &mut State,
    fragment: &[u8],
    ids: &mut [u32],
    lens: &mut [u16],
    out: &mut [u8],
) -> Result<Fed, Refusal>
    ensures { FeedOf s.old ids.old lens.old fragment.now out.old (piece_in result s.new) ids.new lens.new out.new }
{
    early(s, ids, lens)?;
    if s.over {
        return Ok(Fed {
            taken: fragment.len(),
            used: 0,
        });
    }
    if out.len() < REPORT_ROOM || fragment.is_empty() {
        return Ok(Fed { taken: 0, used: 0 });
    }
    if log_bytes::past_l(s.reader.stage) {
        return Ok(next_piece(s, fragment, ids, lens, out));
    }
    Ok(first_piece(s, fragment, ids, lens, out))
}

// Whether the counting has stopped. Before L nothing is counted.
fn has_stopped(s: &State) -> bool
    ensures { result ≡ has_stopped s.now }
{
    log_bytes::past_l(s.reader.stage) && s.counts.full
}

// The end of a log: the report, or as many lines of places as there is room for. It is called until the report is over.
// Without room for a line nothing is done.
pub fn finish(s: &mut State, ids: &[u32], lens: &[u16], out: &mut [u8]) -> Result<Fed, Refusal>
    ensures { CloseOf s.old ids.now lens.now out.old (piece_in result s.new) out.new }
{
    early(s, ids, lens)?;
    if s.over || out.len() < REPORT_ROOM {
        return Ok(Fed { taken: 0, used: 0 });
    }
    let end = s.reader.end();
    let full = has_stopped(s);
    if is_alone(full, end) {
        s.over = true;
        return Ok(Fed {
            taken: 0,
            used: put_end(full, end, out),
        });
    }
    Ok(show_places(s, out))
}

// Where a report begins: L has not been read, there is no board yet, and nothing is counted or shown.
pub fn begin() -> State
    ensures { result ≡ before_first }
{
    State {
        reader: Reader::begin(),
        over: false,
        shown: 0,
        board: Board::blank(0),
        counts: counting::blank(),
    }
}
