// Arrays of any length, lent: the sum of one.
#![tactic(auto)]

ghost use Rattle.std.specs.Prelude.{◌≡◌, ℕ, ◌*◌, ◌^◌, ◌<◌, ◌≤◌, length, map};
ghost use Rattle.arrays.specs.Lists.{total_of};

// A number below a limit, whatever its width: a bound `Into<u64>` would say nothing of its value.
pub trait Word: Copy {
    ghost value: { Self → ℕ };

    ghost limit: { ℕ };

    // The same number in the widest type.
    fn wide(self) -> u64
        ensures value { result ≡ value self }
        ensures limited { result < limit };
}

impl Word for u32 {
    ghost value = { λ n. n };

    ghost limit = { 2 ^ 32 };

    fn wide(self) -> u64 {
        u64::from(self)
    }
}

impl Word for u16 {
    ghost value = { λ n. n };

    ghost limit = { 2 ^ 16 };

    fn wide(self) -> u64 {
        u64::from(self)
    }
}

// The sum of an array's numbers, where so many of them fit.
pub fn sum<T: Word>(row: &[T]) -> u64
    requires { length row.now * T.limit < 2 ^ 64 }
    ensures total { result ≡ total_of (map T.value row.now) }
    ensures limited { result ≤ length row.now * T.limit }
{
    let mut sum = 0;
    for n in row {
        sum += n.wide();
    }
    sum
}
