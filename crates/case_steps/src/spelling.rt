// The bytes of a case as they come. Where the input ends in what is read, the case is not whole, and the error says so.
ghost use Rattle.std.specs.Prelude.{◌≡◌, ℕ, List, [], ◌∷◌, length, IfOk};
ghost use Rattle.std.specs.Int.{w64, from_be_bytes};
ghost use Rattle.std.specs.Io.KnownBytes.{Consumes};

use std::io;
use std::io::{ErrorKind, Read};

// The error of a case whose bytes are there, but have another value than docs/CASES.md says.
pub fn not_whole() -> io::Error {
    io::Error::from(ErrorKind::InvalidData)
}

// The next byte.
pub fn byte<R: Read>(case: &mut R) -> io::Result<u8>
    ensures { IfOk result (λ b. Consumes (R.remaining case.old) (R.remaining case.new) (b ∷ [])) }
{
    let mut byte = [0u8; 1];
    case.read_exact(&mut byte)?;
    Ok(byte[0])
}

// What the next byte names. There is nothing where the input ends, or cannot be read; a byte that names nothing is an
// error.
pub fn next<R: Read, T: TryFrom<u8>>(case: &mut R) -> io::Result<Option<T>>
where
    T::Error: Drop,
{
    let Ok(byte) = byte(case) else {
        return Ok(None);
    };
    match T::try_from(byte) {
        Ok(named) => Ok(Some(named)),
        Err(_) => Err(not_whole()),
    }
}

// The next number: eight bytes, high byte first.
pub fn number<R: Read>(case: &mut R) -> io::Result<u64>
    ensures { IfOk result (λ n. (bytes : List ℕ) × Consumes (R.remaining case.old) (R.remaining case.new) bytes
        × (length bytes ≡ 8) × (n ≡ from_be_bytes w64 bytes)) }
{
    let mut bytes = [0u8; 8];
    case.read_exact(&mut bytes)?;
    Ok(u64::from_be_bytes(bytes))
}
