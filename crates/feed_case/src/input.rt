// The numbers and fragments of a feed case. Where the input ends in one, the case is not whole, and the error says so.
ghost use Rattle.std.specs.Prelude.{◌≡◌, ◌≤◌, length, take, IfOk, IfSome};

use case_steps::spelling;
use std::io;
use std::io::Read;

// The most bytes of a fragment, and of the buffer that is lent to each call.
pub const MOST: usize = 4096;

// The length that says that the log has ended.
const END: usize = 65535;

// What a case plays of its log: the listing, or the report.
#[derive(Clone, Copy, Debug, PartialEq, Eq)]
pub enum Kind {
    Listing,
    Report,
}

// A byte that names no kind.
#[derive(Clone, Copy, Debug, PartialEq, Eq)]
pub struct UnknownKind;

impl TryFrom<u8> for Kind {
    type Error = UnknownKind;

    fn try_from(byte: u8) -> Result<Kind, UnknownKind> {
        match byte {
            0 => Ok(Kind::Listing),
            1 => Ok(Kind::Report),
            _ => Err(UnknownKind),
        }
    }
}

// The next number of two bytes, high byte first.
pub fn short<R: Read>(cases: &mut R) -> io::Result<usize> {
    let mut bytes = [0u8; 2];
    cases.read_exact(&mut bytes)?;
    Ok(usize::from(u16::from_be_bytes(bytes)))
}

// The next fragment, and how many bytes it has. Where the log has ended there is none.
pub fn fragment<R: Read>(cases: &mut R, bytes: &mut [u8]) -> io::Result<Option<usize>>
    ensures { IfOk result (λ next. IfSome next (λ n. (n ≤ length bytes.new) × (n ≡ length (take n bytes.new)))) }
{
    let n = short(cases)?;
    if n == END {
        return Ok(None);
    }
    if bytes.len() < n {
        return Err(spelling::not_whole());
    }
    cases.read_exact(&mut bytes[..n])?;
    Ok(Some(n))
}
