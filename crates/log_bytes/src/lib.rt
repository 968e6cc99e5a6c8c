// The reader of a log: what is known of a field by the bytes of it that have come.
#![tactic(auto)]

ghost use Rattle.std.specs.Prelude.{◌≡◌, ◌⊎◌, cond, MatchOption, ◌+◌, ◌-◌, ◌^◌, ◌<◌, ◌≤◌, length};
ghost use Rattle.log_bytes.specs.declared.Next.TheVariants.{Ends, Unfinished as unfinished};
ghost use Rattle.log_bytes.specs.declared.End.TheVariants.{Long as long};
ghost use Rattle.log_bytes.specs.Format.{number_at, length_in, length_of, right_length, event_of};
ghost use Rattle.log_bytes.specs.Format.{past_l, stage_after, right_tag, in_turn, is_read, is_past, next_in};
ghost use Rattle.log_bytes.specs.Rows.{end_in};

use numbers::{GREATEST_LARGEST, LEAST_LARGEST, LOG_END};
use operands::Opening;

// The bytes of a field before its value: the tag and the length.
pub const HEADER: usize = 3;

// What a whole field says, its numbers in the order of the log: L; an opening's; block; old and new; block, number and
// length. Passed is a field that is passed over.
#[derive(Clone, Copy)]
pub enum Event {
    Largest(u32),
    Open(Opening),
    Close(u32),
    Rename(u32, u32),
    Arrive(u32, u32, u16),
    Serve,
    Passed,
}

// How far a log has been read: L has not been read, or it has.
#[derive(Clone, Copy, Debug, PartialEq, Eq)]
pub enum Stage {
    BeforeL,
    AfterL,
}

// How a log ends: where its last field ends, at a broken field's offset, or it is long.
#[derive(Clone, Copy)]
pub enum End {
    Whole,
    Broken(u64),
    Long,
}

// What is known of a field: it is whole, and has so many bytes; or it ends the log; or it is not finished, and so many
// of its bytes have come.
#[derive(Clone, Copy)]
pub enum Next {
    GoesOn(Event, usize),
    Ends(End),
    Unfinished(usize),
}

// The number of two bytes from byte i on, high byte first.
#[tactic(auto, unfolding(crate::specs::Format::number_at))]
fn number16(bytes: &[u8], i: usize) -> u16
    requires { i + 2 ≤ length bytes.now }
    ensures { result ≡ number_at bytes.now i 2 }
{
    u16::from_be_bytes([bytes[i], bytes[i + 1]])
}

// The same of four bytes.
#[tactic(auto, unfolding(crate::specs::Format::number_at))]
fn number32(bytes: &[u8], i: usize) -> u32
    requires { i + 4 ≤ length bytes.now }
    ensures { result ≡ number_at bytes.now i 4 }
{
    u32::from_be_bytes([bytes[i], bytes[i + 1], bytes[i + 2], bytes[i + 3]])
}

// The length that a field's three first bytes say its value has.
pub fn length_in(bytes: &[u8]) -> usize
    requires { 3 ≤ length bytes.now }
    ensures { (result ≡ length_in bytes.now) × (result < 65536) }
{
    usize::from(number16(bytes, 1))
}

// What a field is by its tag. Passed is a field that is passed over.
#[derive(Clone, Copy, Debug, PartialEq, Eq)]
pub enum Tag {
    Open,
    Close,
    Rename,
    Record,
    Serve,
    Largest,
    Passed,
}

impl Tag {
    ghost use Rattle.log_bytes.specs.Tags.{byte_of, IsTag};

    // The tag that a byte is, if it is one of the log's.
    pub fn of(byte: u8) -> Option<Tag>
        ensures { MatchOption result ((tag : Tag) → IsTag tag byte → ⊥) (λ tag. IsTag tag byte) }
    {
        match byte {
            1 => Some(Tag::Open),
            2 => Some(Tag::Close),
            3 => Some(Tag::Rename),
            4 => Some(Tag::Record),
            5 => Some(Tag::Serve),
            6 => Some(Tag::Largest),
            128.. => Some(Tag::Passed),
            _ => None,
        }
    }

    // Whether it may stand in a stage: L comes first and once.
    #[tactic(auto, unfolding(crate::specs::Format::right_tag))]
    fn may_stand(self, stage: Stage) -> bool
        ensures { result ≡ right_tag (byte_of self) stage }
    {
        match stage {
            Stage::BeforeL => self == Tag::Largest,
            Stage::AfterL => self != Tag::Largest,
        }
    }

    // Whether its value may have so many bytes.
    #[tactic(auto, unfolding(crate::specs::Format::right_length, crate::specs::Format::length_of))]
    fn may_have(self, n: usize) -> bool
        ensures { result ≡ right_length (byte_of self) n }
    {
        match self {
            Tag::Open | Tag::Rename => n == 8,
            Tag::Close => n == 4,
            Tag::Record => n == 10,
            Tag::Serve => n == 0,
            Tag::Largest => n == 2,
            Tag::Passed => true,
        }
    }

    // What its field says, whose value begins with byte i. In line, as all that a field says on its way to the player.
    #[tactic(auto, unfolding(crate::specs::Format::length_of, crate::specs::Format::event_of))]
    #[inline(always)]
    fn event(self, bytes: &[u8], i: usize) -> Event
        requires { i + length_of (byte_of self) ≤ length bytes.now }
        ensures { result ≡ event_of bytes.now (byte_of self) i }
    {
        match self {
            Tag::Open => Event::Open(Opening {
                number: number32(bytes, i),
                share: number32(bytes, i + 4),
            }),
            Tag::Close => Event::Close(number32(bytes, i)),
            Tag::Rename => Event::Rename(number32(bytes, i), number32(bytes, i + 4)),
            Tag::Record => Event::Arrive(
                number32(bytes, i),
                number32(bytes, i + 4),
                number16(bytes, i + 8),
            ),
            Tag::Serve => Event::Serve,
            Tag::Largest => Event::Largest(u32::from(number16(bytes, i))),
            Tag::Passed => Event::Passed,
        }
    }
}

// Whether L has been read.
pub fn past_l(stage: Stage) -> bool
    ensures { result ≡ past_l stage }
{
    stage == Stage::AfterL
}

// The stage after a whole field: only L leads to another.
#[tactic(auto, unfolding(crate::specs::Format::stage_after))]
pub fn stage_after(stage: Stage, event: Event) -> Stage
    ensures { result ≡ stage_after stage event }
{
    match event {
        Event::Largest(_) => Stage::AfterL,
        _ => stage,
    }
}

// L comes first and once, in its range, and nothing else before it.
#[tactic(auto, unfolding(crate::specs::Format::in_turn))]
fn in_turn(event: Event, stage: Stage) -> bool
    ensures { result ≡ in_turn event stage }
{
    match event {
        Event::Largest(largest) => !past_l(stage)
            && (LEAST_LARGEST..=GREATEST_LARGEST).contains(&largest),
        _ => past_l(stage),
    }
}

// How many bytes may come before the one that is past the end of every log.
fn room_from(at: u64) -> usize
    ensures { result ≡ 2 ^ 48 - at }
{
    LOG_END.saturating_sub(at) as usize
}

// Whether byte i of a field is read: it has come, and is not past the end of every log.
#[tactic(auto, unfolding(crate::specs::Format::is_read))]
fn is_read(at: u64, came: usize, i: usize) -> bool
    ensures { result ≡ is_read at came i }
{
    i < came && i < room_from(at)
}

// A field of which nothing more is known is not finished, unless the log is long.
#[tactic(auto, unfolding(crate::specs::Format::is_past))]
fn not_known(at: u64, came: usize) -> Next
    ensures { result ≡ cond (is_past at came) (Ends long) (unfinished came) }
{
    if room_from(at) < came {
        return Next::Ends(End::Long);
    }
    Next::Unfinished(came)
}

// What is known of the field at an offset, of which so many bytes have come. They stand in the list, or so many of them
// as any field has whose value is not passed over.
pub fn next_in(bytes: &[u8], came: usize, at: u64, stage: Stage) -> Next
    requires { (came ≤ length bytes.now) ⊎ (13 ≤ length bytes.now) }
    ensures { result ≡ next_in at bytes.now came stage }
{
    if !is_read(at, came, 0) {
        return not_known(at, came);
    }
    let Some(tag) = Tag::of(bytes[0]) else {
        return Next::Ends(End::Broken(at));
    };
    if !tag.may_stand(stage) {
        return Next::Ends(End::Broken(at));
    }
    if !is_read(at, came, 2) {
        return not_known(at, came);
    }
    let n = length_in(bytes);
    if !tag.may_have(n) {
        return Next::Ends(End::Broken(at));
    }
    if !is_read(at, came, 2 + n) {
        return not_known(at, came);
    }
    let event = tag.event(bytes, HEADER);
    if !in_turn(event, stage) {
        return Next::Ends(End::Broken(at));
    }
    Next::GoesOn(event, HEADER + n)
}

// How a log ends of whose last field so many bytes have come.
#[tactic(auto, unfolding(crate::specs::Rows::end_in))]
pub fn end_in(at: u64, came: usize, stage: Stage) -> End
    ensures { result ≡ end_in at came stage }
{
    if past_l(stage) && came == 0 {
        return End::Whole;
    }
    End::Broken(at)
}
