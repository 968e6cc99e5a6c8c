// One field of a log done and counted: what it says is done on the board, and a send or a close changes the counts
// beside it. No line is written. The board is not tested here: whoever goes from field to field tests it once.
#![tactic(auto)]

ghost use Rattle.std.specs.Prelude.{◌≡◌, false, Ok, IfSome, ◌≤◌, ◌<◌, get_or};
ghost use Rattle.units.specs.Credit.{credit_of};
ghost use Rattle.log_bytes.specs.Format.{is_l};
ghost use Rattle.board.specs.Memory.{numbers_of};
ghost use Rattle.counting.specs.Counting.{tallies_of};
ghost use Rattle.counting.specs.Steps.{tallied};
ghost use Rattle.serving.specs.Serving.{step_in};
ghost use Rattle.report_fields.specs.Fields.{ledger_now, KnownLedger, FieldCounted};
ghost use Rattle.report_fields.specs.Steps.{closing_place, counted_in, SendCounts};

use board::Board;
use counting::Counts;
use log_bytes::Event;
use numbers::PLACES;
use serving::Served;
use units::{Bytes, Parts};

// The place of the block that a field says to close. A block that is closed has no number: so it is asked before.
fn closing_place(event: Event, numbers: &[u32; PLACES]) -> Option<usize>
    ensures found { result ≡ closing_place numbers.now event }
    ensures inside { IfSome result (λ place. place < 64) }
{
    match event {
        Event::Close(block) => finding::find(numbers, block),
        _ => None,
    }
}

// The credit of one slot of the block at a place.
fn slot_credit(b: &Board, place: usize) -> Parts
    requires { (place < 64)
        × ((1 ≤ get_or b.now.shares place 0)
        × ((get_or b.now.shares place 0 ≤ 65536) × (b.now.largest ≤ 2048))) }
    ensures { result.0 ≡ credit_of b.now.largest (get_or b.now.shares place 0) }
{
    let share = b.shares[place];
    units::credit(share, units::class_of(share), Bytes(u64::from(b.largest)))
}

// What a field has come to that is done is counted: the record that it sent, or the block that it closed. Once the
// counting has stopped nothing is.
fn count_field(c: &mut Counts, b: &Board, closing: Option<usize>, sent: Option<Served>)
    requires closes { IfSome closing (λ place. place < 64) }
    requires sends { c.old.full ≡ false → IfSome sent
        (λ x. SendCounts b.now.largest b.now.shares (step_in (Ok x) (numbers_of b.now)) (tallies_of c.old)) }
    ensures { tallied c.new.full (tallies_of c.new)
        ≡ counted_in closing sent b.now.largest b.now.shares c.old.full (tallies_of c.old) }
{
    if c.full {
        return;
    }
    if let Some(served) = sent {
        let credit = slot_credit(b, served.place);
        counting::count_send(
            c,
            served.place,
            served.began,
            served.bytes,
            served.lost,
            credit,
        );
    } else if let Some(place) = closing {
        counting::count_close(c, place);
    }
}

// One field after L: what it says is done and counted. A field that is refused changes no counts.
pub fn play_counted(event: Event, b: &mut Board, c: &mut Counts, ids: &mut [u32], lens: &mut [u16])
    requires { KnownLedger (ledger_now b.old c.old ids.old lens.old) × (is_l event ≡ false) }
    ensures { let before = ledger_now b.old c.old ids.old lens.old in
        let after = ledger_now b.new c.new ids.new lens.new in
        FieldCounted before event after }
{
    let closing = closing_place(event, &b.numbers);
    if let Ok(sent) = events::act(event, b, ids, lens) {
        count_field(c, b, closing, sent);
    }
}
