// The board and the tables as raw lines: all that is not 0. A line's word is a piece of its own. A write that fails is
// not tried again.
use board::Board;
use case_steps::fields::{FIELDS, Field};
use case_steps::tables;
use std::io::Write;

// A field that stands once has no place or class.
fn line<W: Write>(lines: &mut W, field: Field, i: usize, v: u64) {
    let _ = if field.entries() == 1 {
        writeln!(lines, "{field} {v}")
    } else {
        writeln!(lines, "{field} {i} {v}")
    };
}

fn entry<W: Write>(lines: &mut W, i: usize, number: u64, length: u64) {
    if number != 0 || length != 0 {
        let _ = writeln!(lines, "{} {i} {number} {length}", "entry");
    }
}

pub fn all<W: Write>(lines: &mut W, ids: &[u32], lens: &[u16], b: &Board) {
    for field in FIELDS {
        for i in 0..field.entries() {
            let v = field.value(i, b);
            if v != 0 {
                line(lines, field, i, v);
            }
        }
    }
    let _ = writeln!(lines, "{} {} {}", "tables", ids.len(), lens.len());
    for i in 0..tables::entries(ids, lens) {
        entry(lines, i, tables::at(ids, i), tables::at(lens, i));
    }
}
