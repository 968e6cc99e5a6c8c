// The two tables. What lies behind the lent part of a table is 0, so that a table grows by entries of 0.

// Entries of a table or of a burst's list in a case file, at most.
pub const MOST: usize = 4096;

pub fn cut(ids: &mut [u32], lens: &mut [u16], numbers: usize, lengths: usize) {
    let (from, behind) = (numbers.min(ids.len()), lengths.min(lens.len()));
    ids[from..].fill(0);
    lens[behind..].fill(0);
}

// A table that is too short for entry i is left alone.
pub fn set_entry(ids: &mut [u32], lens: &mut [u16], i: usize, number: u32, length: u16) {
    if let Some(id) = ids.get_mut(i) {
        *id = number;
    }
    if let Some(len) = lens.get_mut(i) {
        *len = length;
    }
}

// Entry i of a row, and 0 behind its last.
pub fn at<T: Copy + Into<u64>>(row: &[T], i: usize) -> u64 {
    row.get(i).map_or(0, |v| (*v).into())
}

// The entries of the longer table.
pub fn entries(ids: &[u32], lens: &[u16]) -> usize {
    ids.len().max(lens.len())
}
