// What is told of a call, as it stands behind the call's word.
use board::Board;
use calls::{Bursted, Sent};
use numbers::refusal::{DONE, Refusal, code_of};
use std::fmt;

#[derive(Clone, Copy)]
pub enum Answer {
    Coded(Result<(), Refusal>),
    Served(Result<Sent, Refusal>),
    Bursted(Bursted),
    // Whether the board is spoilt; for tables of a wrong length the refusal of a call.
    Tested(Result<bool, Refusal>),
    Shown,
}

// What the step `spoilt` answers.
pub fn spoilt(ids: &[u32], lens: &[u16], b: &Board) -> Answer {
    Answer::Tested(match spoilt::early(b, ids, lens) {
        Ok(()) => Ok(false),
        Err(Refusal::Spoilt) => Ok(true),
        Err(refusal) => Err(refusal),
    })
}

impl fmt::Display for Answer {
    fn fmt<W: fmt::Write>(&self, f: &mut fmt::Formatter<W>) -> fmt::Result {
        match self {
            Answer::Coded(outcome) => write!(f, " {}", code_of(outcome)),
            Answer::Served(Ok(sent)) => write!(
                f,
                " {} {} {} {} {}",
                DONE, sent.block, sent.number, sent.length, sent.clock
            ),
            // A refused serve tells its code alone.
            Answer::Served(Err(refusal)) => write!(f, " {}", refusal.code()),
            Answer::Bursted(told) => {
                write!(
                    f,
                    " {} {} {}",
                    told.count,
                    told.bytes.0,
                    told.stopped.code()
                )
            }
            Answer::Tested(Ok(spoilt)) => write!(f, " {}", u8::from(*spoilt)),
            Answer::Tested(Err(refusal)) => write!(f, " {}", refusal.code()),
            Answer::Shown => Ok(()),
        }
    }
}
