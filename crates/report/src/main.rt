// Reports on a log as it comes: the log on standard input, its report on standard output. A log that cannot be read has
// no report. What fails is said on standard error, and the exit status is 0 all the same.
#![tactic(auto)]

ghost use Rattle.std.specs.Prelude.{OnOk};
ghost use Rattle.log_input.specs.Telling.{TellsWhole};
ghost use Rattle.report_output.specs.Refusing.{Unrefused};
ghost use Rattle.report_rules.specs.Report.{report_of};

use numbers::TABLE_ENTRIES;
use report_output::Failure;
use std::io::{Read, Write};

// The bytes that are read at a time at most.
const FRAGMENT: usize = 65536;

// The bytes of the buffer for a piece of the report.
const ROOM: usize = 4096;

// Plays the log fragment by fragment. The report is written only where the log has ended. No call is refused: an error
// is a read's or a write's, and `main` is silent only where the whole report is written.
fn report_log<R: Read, W: Write>(log: &mut R, report: &mut W) -> Result<(), Failure>
    ensures told { OnOk result (TellsWhole report_of (R.remaining log.old) (W.contents report.old)
        (W.contents report.new)) }
    ensures unrefused { Unrefused result }
{
    let mut ids = [0u32; TABLE_ENTRIES];
    let mut lens = [0u16; TABLE_ENTRIES];
    let mut fragment = [0u8; FRAGMENT];
    let mut out = [0u8; ROOM];
    let mut state = reporting::begin();
    while !state.over {
        report_output::report_next(
            log,
            report,
            &mut fragment,
            &mut ids,
            &mut lens,
            &mut out,
            &mut state,
        )?;
    }
    Ok(())
}

fn main(rt: HostRuntime) {
    let (mut log, mut report) = (rt.stdin(), rt.stdout());
    let _ = match report_log(&mut log, &mut report) {
        Ok(()) | Err(Failure::Refused(_)) => Ok(()),
        Err(Failure::Unread(_)) => rt.eprintln("report: the log cannot be read"),
        Err(Failure::Unwritten(_)) => rt.eprintln("report: the report cannot be written"),
    };
}
