// The board in memory: one value with the sixty-four places and the seventeen class orders, and how it spells a board
// of the rules.
#![tactic(auto)]

ghost use Rattle.std.specs.Prelude.{◌≡◌};
ghost use Rattle.rules.specs.Board.{fresh};
ghost use Rattle.board.specs.Reading.{encode};

use numbers::{CLASSES, NO_BLOCK, NO_LINK, PLACES};
use units::Parts;

// A link to place p is p + 1, and 0 is none: `next` behind each place, `heads` and `tails` of each class's order,
// `slot`. `deficits` are parts, as `left` is: an array that is lent holds numbers, which are wrapped at each read. A
// board lies in memory as C lays it out, so that a program in C holds one by its address.
#[repr(C)]
#[derive(Clone, Copy)]
pub struct Board {
    pub numbers: [u32; PLACES],
    pub shares: [u32; PLACES],
    pub deficits: [u64; PLACES],
    pub starts: [u16; PLACES],
    pub counts: [u16; PLACES],
    pub ready: [u64; PLACES],
    pub next: [u8; PLACES],
    pub heads: [u8; CLASSES],
    pub tails: [u8; CLASSES],
    pub held: [u32; CLASSES],
    pub largest: u32,
    pub clock: u64,
    pub active: u32,
    pub pending: u32,
    pub slot: u8,
    pub left: Parts,
}

impl Board {
    // The board of all zeros but for L.
    pub fn blank(largest: u32) -> Board
        ensures { result ≡ encode (fresh largest) }
    {
        Board {
            numbers: [NO_BLOCK; PLACES],
            shares: [0; PLACES],
            deficits: [0; PLACES],
            starts: [0; PLACES],
            counts: [0; PLACES],
            ready: [0; PLACES],
            next: [NO_LINK; PLACES],
            heads: [NO_LINK; CLASSES],
            tails: [NO_LINK; CLASSES],
            held: [0; CLASSES],
            largest,
            clock: 0,
            active: 0,
            pending: 0,
            slot: NO_LINK,
            left: Parts(0),
        }
    }
}
