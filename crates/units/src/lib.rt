// The units of the rules: parts and bytes, the class of a share, the starts of a class, the charge of a record and the
// credit of a slot.
#![tactic(auto)]

ghost use Rattle.std.specs.Prelude.{◌≡◌, ◌^◌, ◌<◌, ◌≤◌};
ghost use Rattle.units.specs.Classes.{class_of, next_start};
ghost use Rattle.units.specs.Credit.{charged, charge_of, credit_of};

use numbers::PARTS_PER_BYTE;

// An amount of credit: one byte is 65,536 parts. It stands in a board, which C lays out too.
#[repr(C)]
#[derive(Clone, Copy, Debug, PartialEq, Eq, PartialOrd, Ord)]
pub struct Parts(pub u64);

// An amount of data.
#[derive(Clone, Copy, Debug, PartialEq, Eq, PartialOrd, Ord)]
pub struct Bytes(pub u64);

// Bytes that the line carries with each record besides its own.
const FRAMING: u64 = 0;

// The zero bits in front of 65,536, the one share of class 0, in a u32.
const ZEROS_OF_CLASS_0: u32 = 15;

// The class of a share: the k with 2^(16-k) <= share < 2^(17-k). With each class there is one zero bit more in front.
pub fn class_of(share: u32) -> u32
    requires { (1 ≤ share) × (share ≤ 65536) }
    ensures { result ≡ class_of share }
{
    share.leading_zeros() - ZEROS_OF_CLASS_0
}

// 2^k slots: the length of an interval of class k.
pub fn interval(k: u32) -> u64
    requires { k ≤ 16 }
    ensures { result ≡ 2 ^ k }
{
    1 << k
}

// The next start of class k above a clock.
pub fn next_start(clock: u64, k: u32) -> u64
    requires { (k ≤ 16) × (clock ≤ 2 ^ 62) }
    ensures { result ≡ next_start k clock }
{
    let step = interval(k);
    (clock / step + 1) * step
}

// What a record of this length is charged.
pub fn charged(length: Bytes) -> Bytes
    requires { length.0 < 2 ^ 32 }
    ensures { result.0 ≡ charged length.0 }
{
    Bytes(length.0 + FRAMING)
}

// The charge of a record, in parts.
pub fn charge(length: Bytes) -> Parts
    requires { length.0 < 2 ^ 32 }
    ensures { result.0 ≡ charge_of length.0 }
{
    Parts(charged(length).0 * PARTS_PER_BYTE)
}

// The credit of one slot of a block with this share, whose class is k.
pub fn credit(share: u32, k: u32, largest: Bytes) -> Parts
    requires { (1 ≤ share) × ((share ≤ 65536) × ((k ≡ class_of share) × (largest.0 ≤ 2048))) }
    ensures { result.0 ≡ credit_of largest.0 share }
{
    Parts(u64::from(share) * interval(k) * charged(largest).0)
}
