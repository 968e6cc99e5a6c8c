// The players that a feed case holds to their log: the one of the listing, and the one of the report.
ghost use Rattle.std.specs.Prelude.{◌≤◌, length, IfOk};

use fragments::Reader;
use numbers::refusal::Refusal;
use operands::Fed;

pub trait Player: Sized {
    // Where a log begins whose first byte has an offset of its own.
    fn begin_at(first: u64) -> Self;

    fn is_over(&self) -> bool;

    fn feed(
        &mut self,
        fragment: &[u8],
        ids: &mut [u32],
        lens: &mut [u16],
        out: &mut [u8],
    ) -> Result<Fed, Refusal>
        ensures { IfOk result (λ fed. (fed.taken ≤ length fragment.now) × (fed.used ≤ length out.new)) };

    fn finish(&mut self, ids: &[u32], lens: &[u16], out: &mut [u8]) -> Result<Fed, Refusal>
        ensures { IfOk result (λ fed. fed.used ≤ length out.new) };
}

impl Player for player::State {
    fn begin_at(first: u64) -> player::State {
        player::State {
            reader: Reader {
                at: first,
                ..Reader::begin()
            },
            ..player::begin()
        }
    }

    fn is_over(&self) -> bool {
        self.over
    }

    fn feed(
        &mut self,
        fragment: &[u8],
        ids: &mut [u32],
        lens: &mut [u16],
        out: &mut [u8],
    ) -> Result<Fed, Refusal> {
        player::feed(self, fragment, ids, lens, out)
    }

    fn finish(&mut self, ids: &[u32], lens: &[u16], out: &mut [u8]) -> Result<Fed, Refusal> {
        player::finish(self, ids, lens, out)
    }
}

impl Player for report_play::State {
    fn begin_at(first: u64) -> report_play::State {
        report_play::State {
            reader: Reader {
                at: first,
                ..Reader::begin()
            },
            ..reporting::begin()
        }
    }

    fn is_over(&self) -> bool {
        self.over
    }

    fn feed(
        &mut self,
        fragment: &[u8],
        ids: &mut [u32],
        lens: &mut [u16],
        out: &mut [u8],
    ) -> Result<Fed, Refusal> {
        reporting::feed(self, fragment, ids, lens, out)
    }

    fn finish(&mut self, ids: &[u32], lens: &[u16], out: &mut [u8]) -> Result<Fed, Refusal> {
        reporting::finish(self, ids, lens, out)
    }
}
