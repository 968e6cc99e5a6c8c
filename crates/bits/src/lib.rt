// Sets of classes, each as the bits of one u32: put in, take out, and the lowest.
#![tactic(auto)]

ghost use Rattle.std.specs.Prelude.{◌≡◌, ◌<◌};
ghost use Rattle.bits.specs.Sets.{with_bit, without_bit, lowest_bit};

// The set with class k.
pub fn with_bit(set: u32, k: u32) -> u32
    requires { k < 32 }
    ensures { result ≡ with_bit set k }
{
    set | 1 << k
}

// The set without class k.
pub fn without_bit(set: u32, k: u32) -> u32
    requires { k < 32 }
    ensures { result ≡ without_bit set k }
{
    set & !(1 << k)
}

// The lowest class of the set, and 32 where it has none: the zero bits below its lowest 1.
pub fn lowest(set: u32) -> u32
    ensures { result ≡ lowest_bit set }
{
    set.trailing_zeros()
}
