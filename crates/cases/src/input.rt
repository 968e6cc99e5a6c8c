// The operands of a step.
ghost use Rattle.std.specs.Prelude.{◌≤◌, IfOk};

use case_steps::spelling;
use std::io;
use std::io::Read;

// The next operand. Where the input ends in it, or it is over the greatest value of its type, the step is not whole,
// and the error says so.
pub fn operand<R: Read, T: TryFrom<u64>>(case: &mut R) -> io::Result<T>
where
    T::Error: Drop,
{
    T::try_from(spelling::number(case)?).map_err(|_| spelling::not_whole())
}

// The same of an operand that is at most so much.
pub fn index<R: Read>(case: &mut R, most: usize) -> io::Result<usize>
    ensures { IfOk result (λ i. i ≤ most) }
{
    let i = operand(case)?;
    if most < i {
        return Err(spelling::not_whole());
    }
    Ok(i)
}
