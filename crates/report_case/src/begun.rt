// Hands in the account of each block that a byte of the log has opened.
use counting::Account;
use numbers::PLACES;

// A block that has opened, by the shares before the byte and now, begins with the account that is given for its place.
pub fn hand_in(
    before: &[u32; PLACES],
    now: &[u32; PLACES],
    given: &[Account; PLACES],
    accounts: &mut [Account; PLACES],
) {
    for p in 0..PLACES {
        if before[p] == 0 && now[p] != 0 {
            accounts[p] = given[p];
        }
    }
}
