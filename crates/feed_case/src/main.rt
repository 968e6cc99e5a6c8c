// Feeds logs in the fragments that are given, from the offset that is given, through a buffer of the size that is
// given: the bytes of a feed case file (docs/CASES.md) on standard input, what the box says of each log on standard
// output. What fails is said on standard error.
#![tactic(auto)]

use crate::input::Kind;
use case_steps::spelling;
use lines::LINE_ROOM;
use numbers::LOG_END;
use report_lines::REPORT_ROOM;
use std::io;
use std::io::{Read, Write};

mod input;
mod play;
mod players;

// The least room of a buffer: what a line of a listing may take, and one of a report.
fn least_room(kind: Kind) -> usize {
    match kind {
        Kind::Listing => LINE_ROOM,
        Kind::Report => REPORT_ROOM,
    }
}

// Plays the next case, and answers whether there was one. One that is not whole is an error. Its kind, its offset and
// its room are read before any of them is judged.
fn next_case<R: Read, W: Write>(cases: &mut R, answers: &mut W) -> io::Result<bool> {
    let Ok(byte) = spelling::byte(cases) else {
        return Ok(false);
    };
    let first = spelling::number(cases)?;
    let room = input::short(cases)?;
    let kind = Kind::try_from(byte).map_err(|_| spelling::not_whole())?;
    if LOG_END < first || room < least_room(kind) || input::MOST < room {
        return Err(spelling::not_whole());
    }
    let mut out = [0u8; input::MOST];
    let out = &mut out[..room];
    match kind {
        Kind::Listing => play::play::<R, W, player::State>(cases, answers, out, first)?,
        Kind::Report => play::play::<R, W, report_play::State>(cases, answers, out, first)?,
    }
    let _ = answers.write_all(b"--\n");
    Ok(true)
}

// A proved loop has to end, and nothing says that the input does: it has more turns than any run uses up.
fn main(rt: HostRuntime) {
    let (mut cases, mut answers) = (rt.stdin(), rt.stdout());
    for _ in 0..u64::MAX {
        match next_case(&mut cases, &mut answers) {
            Ok(true) => {}
            Ok(false) => return,
            Err(_) => {
                let _ = rt.eprintln("feed_case: a case is not whole");
                return;
            }
        }
    }
}
