// The steps: each reads its operands and works on what the step before left.
ghost use Rattle.cases.specs.Tables.{Lendable};

use crate::{answers, input, set};
use board::Board;
use case_steps::steps::Step;
use case_steps::tables;
use numbers::TABLE_ENTRIES;
use std::io;
use std::io::{Read, Write};

// What the steps so far have left besides the tables: how many entries of each are lent, and the board.
#[derive(Clone, Copy)]
pub struct CaseState {
    numbers: usize,
    lengths: usize,
    board: Board,
    ghost lendable: { Lendable numbers lengths },
}

impl CaseState {
    // The board of all zeros, with two tables of 2,048 entries.
    pub fn fresh() -> CaseState {
        CaseState {
            numbers: TABLE_ENTRIES,
            lengths: TABLE_ENTRIES,
            board: Board::blank(0),
        }
    }

    // A case begins with the board and the tables all zeros.
    fn begin<R: Read, W: Write>(
        &mut self,
        case: &mut R,
        lines: &mut W,
        ids: &mut [u32],
        lens: &mut [u16],
    ) -> io::Result<()> {
        let number: u64 = input::operand(case)?;
        tables::cut(ids, lens, 0, 0);
        // The word is a piece of its own, as that of every line.
        let _ = writeln!(lines, "{} {number}", "case");
        *self = CaseState::fresh();
        Ok(())
    }

    fn resize<R: Read>(
        &mut self,
        case: &mut R,
        ids: &mut [u32],
        lens: &mut [u16],
    ) -> io::Result<()> {
        let numbers = input::index(case, tables::MOST)?;
        let lengths = input::index(case, tables::MOST)?;
        tables::cut(ids, lens, numbers, lengths);
        self.numbers = numbers;
        self.lengths = lengths;
        Ok(())
    }

    // Reads the operands of a step, and plays it.
    pub fn play<R: Read, W: Write>(
        &mut self,
        case: &mut R,
        lines: &mut W,
        step: Step,
        ids: &mut [u32; tables::MOST],
        lens: &mut [u16; tables::MOST],
    ) -> io::Result<()> {
        match step {
            Step::Case => self.begin(case, lines, ids, lens),
            Step::Tables => self.resize(case, ids, lens),
            Step::Set(field) => set::field(case, field, &mut self.board),
            Step::Entry => set::entry(case, &mut ids[..self.numbers], &mut lens[..self.lengths]),
            Step::Call(call) => answers::answer(
                case,
                lines,
                call,
                &mut ids[..self.numbers],
                &mut lens[..self.lengths],
                &mut self.board,
            ),
        }
    }
}
