// The counts of document 02, Item 1, in memory: what a send adds to them, that they vanish at a close, and whether
// counts that were handed in can be those of a run. They stay where they are, and are changed in place.
#![tactic(auto)]

ghost use Rattle.std.specs.Prelude.{◌≡◌, ◌^◌, ◌<◌, ◌||◌, get_or, ltb};
ghost use Rattle.accounts.specs.Accounts.{no_counts, fits_with};
ghost use Rattle.counting.specs.Counting.{account_of, tallies_of, read_counts, zero_counts, hand_now, fits_now};
ghost use Rattle.counting.specs.Counting.{counts_fit_now, TalliesSized};
ghost use Rattle.counting.specs.Steps.{sent_in, CanCount, vanished_in, SmallHand, SmallHands};

use board::Board;
use numbers::{PARTS_PER_BYTE, PLACES};
use units::{Bytes, Parts};

// The account of a place since its block was opened: slots begun, the credit given by them, the bytes sent, and the
// credit lost.
#[derive(Clone, Copy, PartialEq, Eq)]
pub struct Account {
    pub slots: u64,
    pub credit: Parts,
    pub bytes: Bytes,
    pub lost: Parts,
}

impl Account {
    // It fits a place with this share and so much in hand. No sum is made before its terms are known to be small.
    fn fits(self, share: u32, hand: Parts) -> bool
        requires { hand.0 < 2 ^ 33 }
        ensures { result ≡ fits_with (ltb 0 share) hand.0 (account_of self) }
    {
        if share == 0 {
            return self == NOTHING;
        }
        let credit = self.credit.0;
        credit <= GREATEST_CREDIT
            && self.slots <= credit
            && self.bytes.0 <= credit / PARTS_PER_BYTE
            && self.lost.0 <= credit
            && credit == self.bytes.0 * PARTS_PER_BYTE + self.lost.0 + hand.0
    }
}

// The account of each place. `full` says that the counting has stopped.
#[derive(Clone, Copy)]
pub struct Counts {
    pub accounts: [Account; PLACES],
    pub full: bool,
}

// A block's credit given is at most so many parts.
pub const GREATEST_CREDIT: u64 = 1 << 62;

// The account of a place where nothing was counted.
const NOTHING: Account = Account {
    slots: 0,
    credit: Parts(0),
    bytes: Bytes(0),
    lost: Parts(0),
};

// Nothing has been counted.
#[tactic(auto, using(crate::proofs::Counting::zero_reads))]
pub fn blank() -> Counts
    ensures { (result ≡ zero_counts) × (read_counts result ≡ no_counts) }
{
    Counts {
        accounts: [NOTHING; PLACES],
        full: false,
    }
}

// ---- what a send and a close change

// A send is counted at its place; or the counting stops with it. `credit` is that of one slot.
pub fn count_send(
    c: &mut Counts,
    place: usize,
    began: bool,
    bytes: Bytes,
    lost: Parts,
    credit: Parts,
)
    requires { CanCount place bytes.0 lost.0 credit.0 (tallies_of c.old) }
    ensures added { tallies_of c.new ≡ (sent_in place began bytes.0 lost.0 credit.0 (tallies_of c.old)).tallies }
    ensures stopped { c.new.full
        ≡ c.old.full || (sent_in place began bytes.0 lost.0 credit.0 (tallies_of c.old)).stops }
{
    let account = c.accounts[place];
    let given = if began {
        account.credit.0 + credit.0
    } else {
        account.credit.0
    };
    if GREATEST_CREDIT < given {
        c.full = true;
        return;
    }
    c.accounts[place] = Account {
        slots: account.slots + u64::from(began),
        credit: Parts(given),
        bytes: Bytes(account.bytes.0 + bytes.0),
        lost: Parts(account.lost.0 + lost.0),
    };
}

// A block has closed: its place has no counts.
pub fn count_close(c: &mut Counts, place: usize)
    requires { place < 64 }
    ensures vanished { tallies_of c.new ≡ vanished_in place (tallies_of c.old) }
    ensures stopped { c.new.full ≡ c.old.full }
{
    c.accounts[place] = NOTHING;
}

// ---- counts that were handed in

// What a place has in hand: its deficit, and what is left of the slot where it has the open one.
fn in_hand(b: &Board, place: usize) -> Parts
    requires { (place < 64) × SmallHand b.now.left.0 (get_or b.now.deficits place 0) }
    ensures { result.0 ≡ hand_now place b.now.slot b.now.left.0 (get_or b.now.deficits place 0) }
{
    let deficit = b.deficits[place];
    if usize::from(b.slot) == place + 1 {
        return Parts(deficit + b.left.0);
    }
    Parts(deficit)
}

// The account of a place fits its block on this board.
fn place_fits(b: &Board, c: &Counts, place: usize) -> bool
    requires { (place < 64) × SmallHands b.now }
    ensures { result ≡ fits_now b.now (tallies_of c.now) place }
{
    c.accounts[place].fits(b.shares[place], in_hand(b, place))
}

// Whether the counts can be those of a run to this board: the counting has stopped, or each place's account fits.
#[tactic(auto, using(crate::proofs::Accounts::sized_of), unfolding(crate::specs::Counting::counts_fit_now))]
pub fn counts_fit(b: &Board, c: &Counts) -> bool
    requires { SmallHands b.now }
    ensures fit { result ≡ counts_fit_now b.now c.now }
    ensures sized { TalliesSized (tallies_of c.now) }
{
    c.full || (0..PLACES).all(|place| place_fits(b, c, place))
}
