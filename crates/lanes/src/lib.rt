// Lanes: the run of entries that each place has in the two tables, used as a ring. No other crate knows its depth.
#![tactic(auto)]

ghost use Rattle.std.specs.Prelude.{◌≡◌, ◌<◌, ◌≤◌};
ghost use Rattle.lanes.specs.Lanes.{ring_entry, ring_on, lane_depth, lane_first, lane_entry, lane_on};

// Lane depth: the most records that wait in one lane.
const DEPTH: u16 = 32;

// The entry of the j-th record from the front of a ring. Its depth is a constant where it is called: no division is
// left.
fn ring_entry(first: u16, depth: u16, start: u16, j: u16) -> usize
    requires { 1 ≤ depth }
    ensures { result ≡ ring_entry first depth start j }
{
    usize::from(first) + (usize::from(start) + usize::from(j)) % usize::from(depth)
}

// The start of a ring after a send.
fn ring_on(depth: u16, start: u16) -> u16
    requires { 1 ≤ depth }
    ensures { result ≡ ring_on depth start }
{
    ((u32::from(start) + 1) % u32::from(depth)) as u16
}

// The first entry of a place's lane.
fn first_entry(place: usize) -> u16
    requires { place < 64 }
    ensures { result ≡ lane_first place }
{
    DEPTH * place as u16
}

// How deep a lane is.
pub fn depth() -> u16
    ensures { result ≡ lane_depth }
{
    DEPTH
}

// The entry of the j-th record from the front of a place's lane, counting from 0.
pub fn entry(place: usize, start: u16, j: u16) -> usize
    requires { place < 64 }
    ensures { (result ≡ lane_entry place start j) × (result < 2048) }
{
    ring_entry(first_entry(place), depth(), start, j)
}

// The start of a lane after a send.
pub fn onward(start: u16) -> u16
    ensures { result ≡ lane_on start }
{
    ring_on(depth(), start)
}
