// The writer of a listing's lines: each straight into a lent buffer, from an offset with room for any line on.
#![tactic(auto)]

ghost use Rattle.std.specs.Prelude.{◌≡◌, [], ◌∷◌, ◌+◌, ◌≤◌, length};
ghost use Rattle.lines.specs.Text.{decimal, columns, line_of, Written};
ghost use Rattle.lines.specs.Listing.{line_text};

// Room for any line.
pub const LINE_ROOM: usize = 64;

// A line of a listing, by its word and the numbers that it shows.
#[derive(Clone, Copy)]
pub enum Line {
    Open {
        block: u32,
        code: u8,
    },
    Close {
        block: u32,
        code: u8,
    },
    Name {
        old: u32,
        new: u32,
        code: u8,
    },
    In {
        number: u32,
        code: u8,
    },
    Out {
        block: u32,
        number: u32,
        length: u16,
        clock: u64,
    },
    // A serve that was refused.
    Refused {
        code: u8,
    },
    End {
        clock: u64,
        bytes: u64,
        waiting: u32,
    },
    Broken {
        offset: u64,
    },
    Long,
}

impl Line {
    // Inlined, since where the kind of the line is known no choice among the nine is left: a log is listed faster.
    #[inline(always)]
    #[tactic(auto, using(crate::proofs::Fitting::each_line))]
    pub fn put(self, out: &mut [u8], at: usize) -> usize
        requires { at + 64 ≤ length out.old }
        ensures { Written out.old at (line_text self) result out.new × (result ≤ at + 64) }
    {
        match self {
            Line::Open { block, code } => put_line(out, at, b"open", &[block.into(), code.into()]),
            Line::Close { block, code } => put_line(
                out,
                at,
                b"close",
                &[block.into(), code.into()],
            ),
            Line::Name { old, new, code } => put_line(
                out,
                at,
                b"name",
                &[old.into(), new.into(), code.into()],
            ),
            Line::In { number, code } => put_line(out, at, b"in", &[number.into(), code.into()]),
            Line::Out {
                block,
                number,
                length,
                clock,
            } => put_line(
                out,
                at,
                b"out",
                &[block.into(), number.into(), length.into(), clock],
            ),
            Line::Refused { code } => put_line(out, at, b"out -", &[code.into()]),
            Line::End {
                clock,
                bytes,
                waiting,
            } => put_line(out, at, b"end", &[clock, bytes, waiting.into()]),
            Line::Broken { offset } => put_line(out, at, b"broken", &[offset]),
            Line::Long => put_line(out, at, b"long", &[]),
        }
    }
}

pub fn put_byte(out: &mut [u8], at: usize, b: u8) -> usize
    requires { at + 1 ≤ length out.old }
    ensures { Written out.old at (b ∷ []) result out.new }
{
    out[at] = b;
    at + 1
}

// How many digits a number has: 0 has one, as 1. Most numbers of a listing are codes, so one digit is told first.
fn digits_of(n: u64) -> usize
    ensures { result ≡ length (decimal n) }
{
    if n < 10 {
        return 1;
    }
    n.ilog10() as usize + 1
}

// The digits of a number from one offset up to another, the last digit first. By index, since no proof can know what a
// reversed iter_mut has written.
fn put_digits(out: &mut [u8], at: usize, end: usize, n: u64)
    requires { (end ≡ at + length (decimal n)) × (end ≤ length out.old) }
    ensures { Written out.old at (decimal n) end out.new }
{
    let mut rest = n;
    for i in (at..end).rev() {
        out[i] = b'0' + (rest % 10) as u8;
        rest /= 10;
    }
}

// The number in decimal, with no zero in front.
pub fn put_number(out: &mut [u8], at: usize, n: u64) -> usize
    requires { at + length (decimal n) ≤ length out.old }
    ensures { Written out.old at (decimal n) result out.new }
{
    let end = at + digits_of(n);
    put_digits(out, at, end, n);
    end
}

// A text at an offset of a list that has room for it. Byte by byte: of a copy of slices the compiler may make a call of
// memmove, which a program in C would have to bring.
pub fn put_text(out: &mut [u8], at: usize, text: &[u8]) -> usize
    requires { at + length text.now ≤ length out.old }
    ensures { Written out.old at text.now result out.new }
{
    for (i, &byte) in text.iter().enumerate() {
        out[at + i] = byte;
    }
    at + text.len()
}

// Each number after a space.
#[tactic(auto, using(crate::proofs::Texts::columns_room, crate::proofs::Texts::columns_all))]
pub fn put_columns(out: &mut [u8], at: usize, numbers: &[u64]) -> usize
    requires { at + length (columns numbers.now) ≤ length out.old }
    ensures { Written out.old at (columns numbers.now) result out.new }
{
    let mut end = at;
    for &number in numbers {
        end = put_byte(out, end, b' ');
        end = put_number(out, end, number);
    }
    end
}

#[tactic(auto, using(crate::proofs::Texts::line_length))]
pub fn put_line(out: &mut [u8], at: usize, word: &[u8], numbers: &[u64]) -> usize
    requires { at + length (line_of word.now numbers.now) ≤ length out.old }
    ensures { Written out.old at (line_of word.now numbers.now) result out.new }
{
    let a = put_text(out, at, word);
    let b = put_columns(out, a, numbers);
    put_byte(out, b, b'\n')
}
