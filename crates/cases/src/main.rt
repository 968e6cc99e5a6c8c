// Plays a case file: boards given field by field and the box's public calls on them, read from standard input in the
// byte form of docs/CASES.md and answered line by line on standard output.
#![tactic(auto)]

use crate::output::Lines;
use crate::play::CaseState;
use case_steps::{spelling, tables};
use std::io;
use std::io::{Read, Write};

mod answers;
mod input;
mod output;
mod play;
mod set;
mod show;

// Plays step by step until the input ends, or a step is refused: one that is not whole. A proved loop has to end, and
// nothing says that the input does: it has more turns than any run uses up.
fn play_all<R: Read, W: Write>(case: &mut R, lines: &mut W) -> io::Result<()> {
    let mut ids = [0u32; tables::MOST];
    let mut lens = [0u16; tables::MOST];
    let mut state = CaseState::fresh();
    for _ in 0..u64::MAX {
        let Some(step) = spelling::next(case)? else {
            return Ok(());
        };
        state.play(case, lines, step, &mut ids, &mut lens)?;
    }
    Ok(())
}

fn main(rt: HostRuntime) {
    let (mut case, mut lines) = (rt.stdin(), Lines(rt.stdout()));
    if play_all(&mut case, &mut lines).is_err() {
        let _ = writeln!(lines, "refused");
    }
}
