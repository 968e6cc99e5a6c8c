// A report as it is written, for the programs that report on a log.
#![tactic(auto)]

ghost use Rattle.std.specs.Prelude.{◌≡◌, true, false, [], length, OnOk, OnErr};
ghost use Rattle.std.specs.Prelude.{◌+◌, ◌^◌, ◌≤◌, ◌<◌};
ghost use Rattle.std.specs.Io.KnownBytes.{Appends};
ghost use Rattle.log_input.specs.Telling.{TellsOn, TellsPart};
ghost use Rattle.report_output.specs.declared.Failure.TheVariants.{Refused};
ghost use Rattle.report_output.specs.Refusing.{Unrefused};
ghost use Rattle.report_play.specs.Playing.{offset_of};
ghost use Rattle.reporting.specs.Feeding.{feed_code, held, rest_of};

use numbers::refusal::Refusal;
use report_play::State;
use std::io;
use std::io::{Read, Write};

// Why a log has no whole report.
#[derive(Drop)]
pub enum Failure {
    Unread(io::Error),
    Unwritten(io::Error),
    Refused(Refusal),
}

impl From<Refusal> for Failure {
    ghost from_gives = { λ refusal failure. failure ≡ Refused refusal };

    fn from(refusal: Refusal) -> Failure {
        Failure::Refused(refusal)
    }
}

// Feeds a fragment to a report, and writes what there is to write of it. A call that is refused and a write that fails
// end it, so that what was written is always the report's beginning; tables and buffer keep their lengths. A state that
// can be fed is not refused, and can be fed afterwards too, also where a write fails.
pub fn write_fragment<W: Write>(
    report: &mut W,
    fragment: &[u8],
    ids: &mut [u32],
    lens: &mut [u16],
    out: &mut [u8],
    s: &mut State,
) -> Result<(), Failure>
    requires { 128 ≤ length out.old }
    ensures fed { OnOk result (s.new.over ≡ false → 0 < length fragment.now
        → (offset_of s.new ≡ offset_of s.old + length fragment.now) × (offset_of s.new ≤ 2 ^ 48)) }
    ensures told { OnOk result (TellsPart rest_of (W.contents report.old) (W.contents report.new)
        (held s.old ids.old lens.old) (held s.new ids.new lens.new) fragment.now []) }
    ensures failed { OnErr result ((length ids.new ≡ length ids.old)
        × ((length lens.new ≡ length lens.old) × (length out.new ≡ length out.old))) }
    ensures unrefused { feed_code s.old ids.old lens.old ≡ 0 → Unrefused result }
    ensures goes_on { feed_code s.old ids.old lens.old ≡ 0 → feed_code s.new ids.new lens.new ≡ 0 }
{
    let mut taken: usize = 0;
    while taken < fragment.len() && !s.over {
        let fed = reporting::feed(s, &fragment[taken..], ids, lens, out)?;
        report
            .write_all(&out[..fed.used])
            .map_err(Failure::Unwritten)?;
        taken += fed.taken;
    }
    Ok(())
}

// Writes what is left of a report where its log has ended, a piece at a time. A state that can be fed is not refused.
pub fn write_end<W: Write>(
    report: &mut W,
    ids: &[u32],
    lens: &[u16],
    out: &mut [u8],
    s: &mut State,
) -> Result<(), Failure>
    requires { 128 ≤ length out.old }
    ensures told { OnOk result ((s.new.over ≡ true) × Appends (W.contents report.old) (W.contents report.new)
        (rest_of (held s.old ids.now lens.now) [])) }
    ensures failed { OnErr result (length out.new ≡ length out.old) }
    ensures unrefused { feed_code s.old ids.now lens.now ≡ 0 → Unrefused result }
    ensures goes_on { feed_code s.old ids.now lens.now ≡ 0 → feed_code s.new ids.now lens.now ≡ 0 }
{
    while !s.over {
        let fed = reporting::finish(s, ids, lens, out)?;
        report
            .write_all(&out[..fed.used])
            .map_err(Failure::Unwritten)?;
    }
    Ok(())
}

// Reads what has come of a log, and writes what there is to write of it; where the log has ended, what is left. Of a
// state that can be fed only a read or a write can fail.
pub fn report_next<R: Read, W: Write>(
    log: &mut R,
    report: &mut W,
    fragment: &mut [u8],
    ids: &mut [u32],
    lens: &mut [u16],
    out: &mut [u8],
    s: &mut State,
) -> Result<(), Failure>
    requires { (0 < length fragment.old) × (128 ≤ length out.old) }
    ensures onward { OnOk result (s.new.over ≡ false
        → (offset_of s.old < offset_of s.new) × (offset_of s.new ≤ 2 ^ 48)) }
    ensures told { OnOk result (TellsOn rest_of (R.remaining log.old) (R.remaining log.new)
        (W.contents report.old) (W.contents report.new)
        (held s.old ids.old lens.old) (held s.new ids.new lens.new)) }
    ensures unrefused { feed_code s.old ids.old lens.old ≡ 0 → Unrefused result }
    ensures goes_on { feed_code s.old ids.old lens.old ≡ 0 → feed_code s.new ids.new lens.new ≡ 0 }
{
    let n = log_input::next_fragment(log, fragment).map_err(Failure::Unread)?;
    if n == 0 {
        return write_end(report, ids, lens, out, s);
    }
    write_fragment(report, &fragment[..n], ids, lens, out, s)
}
