// The steps that set a field of the board or an entry of the tables: each reads its operands.
use crate::input;
use board::Board;
use case_steps::fields::Field;
use case_steps::{spelling, tables};
use std::io;
use std::io::Read;

// Which place or class; a field that stands once has no operand for it.
fn which<R: Read>(case: &mut R, count: usize) -> io::Result<usize> {
    if count <= 1 {
        return Ok(0);
    }
    input::index(case, count - 1)
}

pub fn field<R: Read>(case: &mut R, field: Field, b: &mut Board) -> io::Result<()> {
    let i = which(case, field.entries())?;
    let v = input::operand(case)?;
    field.set(i, v, b).ok_or_else(spelling::not_whole)
}

pub fn entry<R: Read>(case: &mut R, ids: &mut [u32], lens: &mut [u16]) -> io::Result<()> {
    let i = input::index(case, tables::MOST - 1)?;
    let number = input::operand(case)?;
    let length = input::operand(case)?;
    tables::set_entry(ids, lens, i, number, length);
    Ok(())
}
