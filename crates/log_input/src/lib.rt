// A log as it comes, for the programs that play one.
#![tactic(auto)]

ghost use Rattle.std.specs.Prelude.{◌≡◌, ◌<◌, length, take, IfOk, OnErr};
ghost use Rattle.std.specs.Io.{ReadsAtMost};
ghost use Rattle.std.specs.Io.KnownBytes.{Consumes, IsAtEnd, Keeps};

use std::io;
use std::io::Read;

// Reads what has come, as soon as something has, and answers how many bytes; none where the log has ended. A read that
// fails takes nothing from the log: then it is not known where the log ends, and the error says so.
pub fn next_fragment<R: Read>(log: &mut R, fragment: &mut [u8]) -> io::Result<usize>
    ensures counts { ReadsAtMost result fragment.new }
    ensures came { IfOk result (λ n. Consumes (R.remaining log.old) (R.remaining log.new) (take n fragment.new)) }
    ensures ended { IfOk result (λ n. n ≡ 0 → 0 < length fragment.new → IsAtEnd (R.remaining log.new)) }
    ensures failed { OnErr result (Keeps (R.remaining log.old) (R.remaining log.new)) }
{
    log.read(fragment)
}
