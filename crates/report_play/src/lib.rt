// A log that comes in fragments, played with the counts beside the board, for its report. No line is written.
#![tactic(auto)]

ghost use Rattle.std.specs.Prelude.{◌≡◌, IsErr};
ghost use Rattle.report_play.specs.Playing.{CanPlay, played_in, PlayedOn};

use board::Board;
use counting::Counts;
use fragments::Reader;
use log_bytes::End;

// What stands between two calls: the log's reader, and whether its report is over; the place from which lines are still
// to be written, the board, and the counts beside it.
#[derive(Clone, Copy)]
pub struct State {
    pub reader: Reader,
    pub over: bool,
    pub shown: usize,
    pub board: Board,
    pub counts: Counts,
}

// How a log ends that is broken or long, and whether the counting had stopped there.
#[derive(Clone, Copy)]
pub struct Ended {
    pub end: End,
    pub full: bool,
}

// The fields after L in turn, as far as they are whole in this fragment. Where the log ends in it the state stays as it
// was: so they are played on a copy.
pub fn play_on(
    s: &mut State,
    fragment: &[u8],
    ids: &mut [u32],
    lens: &mut [u16],
) -> Result<(), Ended>
    requires { CanPlay s.old ids.old lens.old }
    ensures played { PlayedOn s.old ids.old lens.old fragment.now (played_in result s.new) ids.new lens.new }
    ensures stays { IsErr result → s.new ≡ s.old }
{
    let mut here = *s;
    let mut taken = 0;
    while taken < fragment.len() {
        let read = match here.reader.read_on(&fragment[taken..]) {
            Ok(read) => read,
            Err(end) => {
                return Err(Ended {
                    end,
                    full: here.counts.full,
                });
            }
        };
        taken += read.taken;
        if let Some(event) = read.event {
            report_fields::play_counted(event, &mut here.board, &mut here.counts, ids, lens);
        }
    }
    here.over = false;
    *s = here;
    Ok(())
}
