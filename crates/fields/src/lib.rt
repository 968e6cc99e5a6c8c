// One field of a log played: what it says is done (crate events), and its line is put behind what is written. The board
// is not tested here: whoever goes from field to field tests it once, and each step leaves it good.
#![tactic(auto)]

ghost use Rattle.std.specs.Prelude.{◌≡◌, false, ◌+◌, ◌^◌, ◌<◌, ◌≤◌, length, IfOk, is_some};
ghost use Rattle.log_bytes.specs.Format.{is_l};
ghost use Rattle.lines.specs.Text.{Written};
ghost use Rattle.listing_rules.specs.Listing.{last_of};
ghost use Rattle.board.specs.Memory.{After, numbers_of};
ghost use Rattle.events.specs.Events.{step_of_act, serves};
ghost use Rattle.fields.specs.Fields.{memory, KnownMemory, FieldPlayed, event_line, shown_text};

use board::Board;
use lines::Line;
use log_bytes::{End, Event};
use numbers::refusal::{Refusal, code_of};
use serving::Served;
use units::Bytes;

// What a field leaves besides the board and the tables: where its line ends, and the bytes sent so far.
#[derive(Clone, Copy)]
pub struct Moved {
    pub used: usize,
    pub sent: Bytes,
}

// The line of a field, by what came of it. A field that is passed over gives none, and L is not read twice.
fn line_of(
    event: Event,
    came: Result<Option<Served>, Refusal>,
    b: &Board,
    ids: &[u32],
    lens: &[u16],
) -> Option<Line>
    requires tables { (length ids.now ≡ 2048) × (length lens.now ≡ 2048) }
    requires inside { let step = step_of_act came (numbers_of b.now) in (step.place < 64) × (step.entry < 2048) }
    requires told { IfOk came (λ told. is_some told ≡ serves event) }
    ensures { let step = step_of_act came (numbers_of b.now) in
        shown_text result
        ≡ event_line b.now.numbers ids.now lens.now event step.code step.place step.entry step.slot_clock }
{
    let code = code_of(&came);
    match event {
        Event::Open(opening) => Some(Line::Open {
            block: opening.number,
            code,
        }),
        Event::Close(block) => Some(Line::Close { block, code }),
        Event::Rename(old, new) => Some(Line::Name { old, new, code }),
        Event::Arrive(_, number, _) => Some(Line::In { number, code }),
        Event::Serve => match came {
            Ok(Some(served)) => Some(Line::Out {
                block: b.numbers[served.place],
                number: ids[served.entry],
                length: lens[served.entry],
                clock: served.slot_clock,
            }),
            Err(_) => Some(Line::Refused { code }),
            // A serve that is done tells of its record.
            Ok(None) => unreachable!(),
        },
        Event::Passed | Event::Largest(_) => None,
    }
}

// The bytes that a field is charged, by what came of it: those of the record that it sent, if it sent one.
fn charged(came: Result<Option<Served>, Refusal>) -> Bytes
    ensures { (now : After) → result ≡ (step_of_act came now).bytes }
{
    match came {
        Ok(Some(served)) => served.bytes,
        Ok(None) | Err(_) => Bytes(0),
    }
}

// One field after L: what it says is done, and its line is put behind what is written. One that is passed over does
// nothing and has no line: it is told first, so that it costs no more than being read.
pub fn play_field(
    event: Event,
    b: &mut Board,
    ids: &mut [u32],
    lens: &mut [u16],
    sent: Bytes,
    out: &mut [u8],
    used: usize,
) -> Moved
    requires known_memory { let before = memory b.old ids.old lens.old sent.0 in
        KnownMemory before × ((sent.0 < 2 ^ 63) × (is_l event ≡ false)) }
    requires used_in_bounds { used + 64 ≤ length out.old }
    ensures { let before = memory b.old ids.old lens.old sent.0 in
        let after = memory b.new ids.new lens.new result.sent.0 in
        FieldPlayed before event after out.old used result.used out.new }
{
    if let Event::Passed = event {
        return Moved { used, sent };
    }
    let came = events::act(event, b, ids, lens);
    let used = match line_of(event, came, b, ids, lens) {
        Some(line) => line.put(out, used),
        None => used,
    };
    Moved {
        used,
        sent: Bytes(sent.0 + charged(came).0),
    }
}

// The last line of a listing: `end` with these numbers, `broken N` or `long`.
pub fn show_end(
    end: End,
    clock: u64,
    sent: Bytes,
    waiting: u32,
    out: &mut [u8],
    used: usize,
) -> usize
    requires { used + 64 ≤ length out.old }
    ensures { Written out.old used (last_of clock sent.0 waiting end) result out.new
        × (result ≤ used + 64) }
{
    let line = match end {
        End::Whole => Line::End {
            clock,
            bytes: sent.0,
            waiting,
        },
        End::Broken(offset) => Line::Broken {
            offset: offset as u64,
        },
        End::Long => Line::Long,
    };
    line.put(out, used)
}
