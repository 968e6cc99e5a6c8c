// The steps that make a call: each reads its operands and writes the answer line.
use crate::{input, show};
use board::Board;
use case_steps::answers::Answer;
use case_steps::steps::Call;
use case_steps::{answers, digest, tables};
use operands::Opening;
use std::io;
use std::io::{Read, Write};
use units::Bytes;

// A write that fails is not tried again: whoever reads the answers finds them short.
fn line<W: Write>(lines: &mut W, call: Call, answer: &Answer, digest: u64) {
    let _ = writeln!(lines, "{call}{answer} #{digest}");
}

pub fn answer<R: Read, W: Write>(
    case: &mut R,
    lines: &mut W,
    call: Call,
    ids: &mut [u32],
    lens: &mut [u16],
    b: &mut Board,
) -> io::Result<()> {
    let answer = match call {
        Call::Make => {
            let largest = input::operand(case)?;
            let made = calls::make(ids, lens, largest);
            *b = calls::board_made(made);
            Answer::Coded(made.map(|_| ()))
        }
        Call::Open => {
            let number = input::operand(case)?;
            let share = input::operand(case)?;
            Answer::Coded(calls::open(b, ids, lens, Opening { number, share }))
        }
        Call::Rename => {
            let old = input::operand(case)?;
            let new = input::operand(case)?;
            Answer::Coded(calls::rename(b, ids, lens, old, new))
        }
        Call::Close => {
            let block = input::operand(case)?;
            Answer::Coded(calls::close(b, ids, lens, block))
        }
        Call::Record => {
            let block = input::operand(case)?;
            let id = input::operand(case)?;
            let length = input::operand(case)?;
            Answer::Coded(calls::record(b, ids, lens, block, id, length))
        }
        Call::Serve => Answer::Served(calls::serve(b, ids, lens)),
        Call::Burst => return burst(case, lines, ids, lens, b),
        Call::Spoilt => answers::spoilt(ids, lens, b),
        Call::Show => {
            show::all(lines, ids, lens, b);
            Answer::Shown
        }
    };
    line(lines, call, &answer, digest::left_by_call(ids, lens, b));
    Ok(())
}

// A burst is answered apart, so that its list is on the stack for no other call.
fn burst<R: Read, W: Write>(
    case: &mut R,
    lines: &mut W,
    ids: &[u32],
    lens: &[u16],
    b: &mut Board,
) -> io::Result<()> {
    let bytes = input::operand(case)?;
    let room = input::index(case, tables::MOST)?;
    let mut list = [u32::MAX; tables::MOST];
    let list = &mut list[..room];
    let answer = Answer::Bursted(calls::burst(b, ids, lens, Bytes(bytes), list));
    line(
        lines,
        Call::Burst,
        &answer,
        digest::left_by_burst(ids, lens, list, b),
    );
    Ok(())
}
