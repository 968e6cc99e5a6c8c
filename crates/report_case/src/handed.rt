// The accounts that are handed in. A case that ends in them, or that hands in one for a place that is none, is not
// whole, and its error says so.
use case_steps::spelling;
use counting::Account;
use numbers::PLACES;
use std::io;
use std::io::Read;
use units::{Bytes, Parts};

// The account of one more place.
fn next<R: Read>(case: &mut R, given: &mut [Account; PLACES]) -> io::Result<()> {
    let place = spelling::number(case)? as usize;
    if PLACES <= place {
        return Err(spelling::not_whole());
    }
    given[place] = Account {
        slots: spelling::number(case)?,
        credit: Parts(spelling::number(case)?),
        bytes: Bytes(spelling::number(case)?),
        lost: Parts(spelling::number(case)?),
    };
    Ok(())
}

// The accounts with which a block begins that opens on each place: zeros, where none is handed in.
pub fn accounts<R: Read>(case: &mut R) -> io::Result<[Account; PLACES]> {
    let mut given = counting::blank().accounts;
    for _ in 0..spelling::byte(case)? {
        next(case, &mut given)?;
    }
    Ok(given)
}
