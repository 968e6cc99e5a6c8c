// The writer of a report's lines: each straight into a lent buffer, from an offset with room for any line on. With it
// the difference of got and due as a whole number, and its text.
#![tactic(auto)]

ghost use Rattle.std.specs.Prelude.{◌≡◌, ◌+◌, ◌^◌, ◌≤◌, length, pos, ◌-ℤ◌};
ghost use Rattle.lines.specs.Text.{Written};
ghost use Rattle.report_lines.specs.Text.{signed, account_line, full_line};

use lines::{put_byte, put_columns, put_line, put_number};
use units::{Bytes, Parts};

// Room for any line.
pub const REPORT_ROOM: usize = 128;

// What was got less what was due: below 0 while less was got.
pub fn difference(got: Parts, due: Parts) -> i64
    requires { (got.0 ≤ 2 ^ 62) × (due.0 ≤ 2 ^ 62) }
    ensures { result ≡ pos got.0 -ℤ pos due.0 }
{
    got.0 as i64 - due.0 as i64
}

// A whole number in decimal: a sign below 0 alone, and no zero in front.
fn put_signed(out: &mut [u8], at: usize, d: i64) -> usize
    requires { at + length (signed d) ≤ length out.old }
    ensures { Written out.old at (signed d) result out.new }
{
    if d < 0 {
        let sign = put_byte(out, at, b'-');
        return put_number(out, sign, d.unsigned_abs());
    }
    put_number(out, at, d.unsigned_abs())
}

// The line of a block that is open at the end. Its six numbers come together for this one call alone, so a struct would
// only name them once more.
pub fn put_account(
    out: &mut [u8],
    at: usize,
    block: u32,
    slots: u64,
    credit: Parts,
    bytes: Bytes,
    difference: i64,
    lost: Parts,
) -> usize
    requires { at + 128 ≤ length out.old }
    ensures { Written out.old at (account_line block slots credit.0 bytes.0 difference lost.0) result
        out.new
        × (result ≤ at + 128) }
{
    let a = put_number(out, at, block.into());
    let b = put_columns(out, a, &[slots, credit.0, bytes.0]);
    let c = put_byte(out, b, b' ');
    let d = put_signed(out, c, difference);
    let e = put_columns(out, d, &[lost.0]);
    put_byte(out, e, b'\n')
}

#[tactic(auto, unfolding(crate::specs::Text::full_line, lines::specs::Text::line_of, lines::specs::Text::columns))]
pub fn put_full(out: &mut [u8], at: usize) -> usize
    requires { at + 128 ≤ length out.old }
    ensures { Written out.old at full_line result out.new × (result ≤ at + 128) }
{
    put_line(out, at, b"full", &[])
}
