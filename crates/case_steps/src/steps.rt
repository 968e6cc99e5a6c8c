// The steps of a case file, by the byte of each and its word, as docs/CASES.md lists them.
use crate::fields::Field;
use std::fmt;

#[derive(Clone, Copy, Debug, PartialEq, Eq)]
pub enum Step {
    Case,
    Tables,
    Set(Field),
    Entry,
    Call(Call),
}

// A step that is answered by a line of its own, which begins with the call's word.
#[derive(Clone, Copy, Debug, PartialEq, Eq)]
pub enum Call {
    Make,
    Open,
    Rename,
    Close,
    Record,
    Serve,
    Burst,
    Spoilt,
    Show,
}

// A byte that names no step.
#[derive(Clone, Copy, Debug, PartialEq, Eq)]
pub struct UnknownStep;

impl TryFrom<u8> for Step {
    type Error = UnknownStep;

    fn try_from(byte: u8) -> Result<Step, UnknownStep> {
        Ok(match byte {
            1 => Step::Case,
            2 => Step::Tables,
            3 => Step::Set(Field::Largest),
            4 => Step::Set(Field::Clock),
            5 => Step::Set(Field::Active),
            6 => Step::Set(Field::Pending),
            7 => Step::Set(Field::Slot),
            8 => Step::Set(Field::Left),
            9 => Step::Set(Field::Number),
            10 => Step::Set(Field::Share),
            11 => Step::Set(Field::Deficit),
            12 => Step::Set(Field::Start),
            13 => Step::Set(Field::Count),
            14 => Step::Set(Field::Ready),
            15 => Step::Set(Field::Next),
            16 => Step::Set(Field::Head),
            17 => Step::Set(Field::Tail),
            18 => Step::Set(Field::Held),
            19 => Step::Entry,
            20 => Step::Call(Call::Make),
            21 => Step::Call(Call::Open),
            22 => Step::Call(Call::Rename),
            23 => Step::Call(Call::Close),
            24 => Step::Call(Call::Record),
            25 => Step::Call(Call::Serve),
            26 => Step::Call(Call::Burst),
            27 => Step::Call(Call::Spoilt),
            28 => Step::Call(Call::Show),
            _ => return Err(UnknownStep),
        })
    }
}

impl fmt::Display for Call {
    fn fmt<W: fmt::Write>(&self, f: &mut fmt::Formatter<W>) -> fmt::Result {
        f.write_str(match self {
            Call::Make => "make",
            Call::Open => "open",
            Call::Rename => "rename",
            Call::Close => "close",
            Call::Record => "record",
            Call::Serve => "serve",
            Call::Burst => "burst",
            Call::Spoilt => "spoilt",
            Call::Show => "show",
        })
    }
}
