// The digest of all that a call leaves.
use crate::fields::FIELDS;
use board::Board;

const MODULUS: u64 = 4294967291;

// The lowest sixteen bits of v are the next part. The remainder is taken before the product, so nothing is asked of h.
fn part(h: u64, v: u64) -> u64 {
    (h % MODULUS) * 65599 + v % 65536 + 1
}

fn take(h: u64, v: u64) -> u64 {
    let first = part(h, v >> 48);
    let second = part(first, v >> 32);
    let third = part(second, v >> 16);
    part(third, v)
}

fn of_board(b: &Board) -> u64 {
    let mut h = 0;
    for field in FIELDS {
        for i in 0..field.entries() {
            h = take(h, field.value(i, b));
        }
    }
    h
}

// A lent table or a burst's list: its length and its entries.
fn lent<T: Copy + Into<u64>>(h: u64, row: &[T]) -> u64 {
    let counted = take(h, row.len() as u64);
    row.iter().fold(counted, |h, v| take(h, (*v).into()))
}

// The board and the tables.
fn board_and_tables(ids: &[u32], lens: &[u16], b: &Board) -> u64 {
    lent(lent(of_board(b), ids), lens)
}

pub fn left_by_call(ids: &[u32], lens: &[u16], b: &Board) -> u64 {
    board_and_tables(ids, lens, b) % MODULUS
}

// A burst leaves its list too.
pub fn left_by_burst(ids: &[u32], lens: &[u16], list: &[u32], b: &Board) -> u64 {
    lent(board_and_tables(ids, lens, b), list) % MODULUS
}
