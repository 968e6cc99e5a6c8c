// Reports a log whose blocks begin with counts that are handed in, so that tests come to reports that no log comes to:
// the bytes of a report case (docs/CASES.md) on standard input, the report on standard output. What fails is said on
// standard error.
#![tactic(auto)]

use numbers::TABLE_ENTRIES;
use report_lines::REPORT_ROOM;
use report_output::Failure;
use std::io::{Read, Write};

mod begun;
mod handed;

// The log is read byte by byte, since a byte opens one block at most.
fn play_case<R: Read, W: Write>(case: &mut R, report: &mut W) -> Result<(), Failure> {
    let given = handed::accounts(case).map_err(Failure::Unread)?;
    let mut ids = [0u32; TABLE_ENTRIES];
    let mut lens = [0u16; TABLE_ENTRIES];
    let mut byte = [0u8; 1];
    let mut out = [0u8; REPORT_ROOM];
    let mut state = reporting::begin();
    while !state.over {
        let before = state.board.shares;
        report_output::report_next(
            case, report, &mut byte, &mut ids, &mut lens, &mut out, &mut state,
        )?;
        begun::hand_in(
            &before,
            &state.board.shares,
            &given,
            &mut state.counts.accounts,
        );
    }
    Ok(())
}

fn main(rt: HostRuntime) {
    let (mut case, mut report) = (rt.stdin(), rt.stdout());
    let _ = match play_case(&mut case, &mut report) {
        Ok(()) | Err(Failure::Refused(_)) => Ok(()),
        Err(Failure::Unread(_)) => rt.eprintln("report_case: the case cannot be read"),
        Err(Failure::Unwritten(_)) => rt.eprintln("report_case: the report cannot be written"),
    };
}
