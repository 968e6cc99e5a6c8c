// One field of a log done: what it says is done on the board, and the answer says what came of it. No line is written,
// so that a listing and a report go by the same step. The board is not tested here: whoever goes from field to field
// tests it once, and each step leaves it good.
#![tactic(auto)]

ghost use Rattle.std.specs.Prelude.{◌≡◌, false, IfOk, is_some};
ghost use Rattle.log_bytes.specs.Format.{is_l};
ghost use Rattle.board.specs.Memory.{numbers_of, holding};
ghost use Rattle.board.specs.Leaving.{Known};
ghost use Rattle.events.specs.Events.{Acted, step_of_act, serves};

use board::Board;
use log_bytes::Event;
use numbers::refusal::Refusal;
use serving::Served;
use units::Bytes;

// One field after L: what it says is done. A serve tells of the record that it sends.
pub fn act(
    event: Event,
    b: &mut Board,
    ids: &mut [u32],
    lens: &mut [u16],
) -> Result<Option<Served>, Refusal>
    requires { Known b.old ids.old lens.old × (is_l event ≡ false) }
    ensures acted { let before = holding b.old ids.old lens.old in
        let after = holding b.new ids.new lens.new in
        Acted before event after (step_of_act result (numbers_of b.new)) }
    ensures told { IfOk result (λ told. is_some told ≡ serves event) }
{
    match event {
        Event::Open(opening) => blocks::open_in(b, opening)?,
        Event::Close(block) => blocks::close_in(b, block)?,
        Event::Rename(old, new) => blocks::rename_in(b, old, new)?,
        Event::Arrive(block, number, bytes) => {
            taking::record_in(b, ids, lens, block, number, bytes)?;
        }
        // A serve with room for one record and bytes for any.
        Event::Serve => {
            let served = serving::serve_within(b, lens, Bytes(serving::ANY_LENGTH), 1)?;
            return Ok(Some(served));
        }
        // A field that is passed over does nothing, and L is not read twice.
        Event::Passed | Event::Largest(_) => {}
    }
    Ok(None)
}
