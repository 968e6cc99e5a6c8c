// What a program in C holds and is told besides a board, and the player's calls on its feeder. Each call asks nothing
// and promises what the player's call below it promises.
#![tactic(auto)]

ghost use Rattle.std.specs.Prelude.{◌≡◌};
ghost use Rattle.numbers.specs.Codes.{outcome_code};
ghost use Rattle.c_calls.specs.Feeding.{state_of, feeder_of, fed_in, FeederFed, FeederFinished};

use board::Board;
// `Sent` and `Fed` are passed on: a program in Rust finds all that it is told under this crate's name.
pub use calls::Sent;
use fragments::{FIELD_ROOM, Reader};
use log_bytes::Stage;
use numbers::refusal::Refusal;
pub use operands::Fed;
use player::State;
use units::Bytes;

// What a burst sent: how many records, and the bytes they total.
#[repr(C)]
#[derive(Clone, Copy)]
pub struct Total {
    pub count: usize,
    pub bytes: u64,
}

// What stands between two fragments of a log: its board; the offset of the next field, the bytes sent so far, how many
// bytes of the field have come and those that are kept; and whether the board is made, so that L has been read, and
// whether the listing is over, each 0 for no. All zeros are where a log begins.
#[repr(C)]
#[derive(Clone, Copy)]
pub struct Feeder {
    pub board: Board,
    pub at: u64,
    pub sent: u64,
    pub came: usize,
    pub kept: [u8; FIELD_ROOM],
    pub made: u8,
    pub over: u8,
}

// The player's state; every value of a feeder is one.
impl From<&Feeder> for State {
    ghost from_gives = { λ f s. s ≡ state_of f.now };

    #[tactic(auto, unfolding(crate::specs::Feeding::state_of))]
    fn from(f: &Feeder) -> State {
        State {
            reader: Reader {
                stage: if f.made == 0 {
                    Stage::BeforeL
                } else {
                    Stage::AfterL
                },
                at: f.at,
                came: f.came,
                kept: f.kept,
            },
            over: f.over != 0,
            sent: Bytes(f.sent),
            board: f.board,
        }
    }
}

impl From<&State> for Feeder {
    ghost from_gives = { λ s f. f ≡ feeder_of s.now };

    #[tactic(auto, unfolding(crate::specs::Feeding::feeder_of))]
    fn from(s: &State) -> Feeder {
        Feeder {
            board: s.board,
            at: s.reader.at,
            sent: s.sent.0,
            came: s.reader.came,
            kept: s.reader.kept,
            made: u8::from(log_bytes::past_l(s.reader.stage)),
            over: u8::from(s.over),
        }
    }
}

// The next fragment of a log. A refusal leaves the feeder as it is, byte for byte.
pub fn feed_on(
    f: &mut Feeder,
    ids: &mut [u32],
    lens: &mut [u16],
    fragment: &[u8],
    out: &mut [u8],
) -> Result<Fed, Refusal>
    ensures { FeederFed f.old ids.old lens.old fragment.now out.old
        (outcome_code result) (fed_in result) f.new ids.new lens.new out.new }
{
    let mut s = State::from(&*f);
    let fed = player::feed(&mut s, fragment, ids, lens, out)?;
    *f = Feeder::from(&s);
    Ok(fed)
}

// The end of a log. A refusal leaves the feeder as it is, byte for byte.
pub fn finish_on(f: &mut Feeder, ids: &[u32], lens: &[u16], out: &mut [u8]) -> Result<Fed, Refusal>
    ensures { FeederFinished f.old ids.now lens.now out.old
        (outcome_code result) (fed_in result) f.new out.new }
{
    let mut s = State::from(&*f);
    let fed = player::finish(&mut s, ids, lens, out)?;
    *f = Feeder::from(&s);
    Ok(fed)
}
