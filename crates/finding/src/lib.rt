// Finding: what is known of a number, the lowest free place, and the range of a number with an amount. What is done
// with a block begins here.
#![tactic(auto)]

ghost use Rattle.std.specs.Prelude.{◌≡◌, ◌||◌, ◌+◌, ◌-◌, ◌<◌, eqb, ltb, IfSome};
ghost use Rattle.finding.specs.Finding.{place_at, found_in, lowest_free};
ghost use Rattle.std.specs.List.{position_from};

use numbers::{NO_BLOCK, PLACES};

// The first place with this number.
fn place_with(numbers: &[u32; PLACES], number: u32) -> Option<usize>
    ensures first { result ≡ position_from (λ n. eqb n number) 0 numbers.now }
    ensures inside { IfSome result (λ place. place < 64) }
{
    numbers.iter().position(|&n| n == number)
}

// The open block with this number. A free place has NO_BLOCK, which is no block's number.
pub fn find(numbers: &[u32; PLACES], number: u32) -> Option<usize>
    ensures found { result ≡ found_in numbers.now number }
    ensures inside { IfSome result (λ place. place < 64) }
{
    if number == NO_BLOCK {
        return None;
    }
    place_with(numbers, number)
}

// The lowest free place; there is none where all are taken.
pub fn lowest_free(numbers: &[u32; PLACES]) -> Option<usize>
    ensures found { result ≡ place_at (lowest_free numbers.now) }
    ensures inside { IfSome result (λ place. place < 64) }
{
    place_with(numbers, NO_BLOCK)
}

// A number of 0, or an amount that is 0 or above the most.
pub fn outside(number: u32, amount: u32, most: u32) -> bool
    ensures { result ≡ eqb number 0 || (eqb amount 0 || ltb most amount) }
{
    number == NO_BLOCK || amount == 0 || most < amount
}
