// The reader of a log that comes in fragments: it keeps at most one unfinished field, and of a value that is passed
// over nothing.
#![tactic(auto)]

ghost use Rattle.std.specs.Prelude.{◌≡◌, ◌⊎◌, ◌+◌, ◌≤◌, ◌<◌, length};
ghost use Rattle.log_bytes.specs.Format.{length_in};
ghost use Rattle.fragments.specs.Kept.{kept_of, wanted_of, Behind, FirstKept};

use log_bytes::{End, Event, HEADER, Next, Stage, Tag};

// Room for any field that is kept: those that are not passed over have no more bytes.
pub const FIELD_ROOM: usize = 13;

// How many bytes are kept of a field of which so many have come: all, but of one that is passed over the tag and the
// length alone.
#[tactic(auto, using(log_bytes::proofs::Tags::not_passed), unfolding(crate::specs::Kept::kept_of))]
fn kept_of(tag: u8, came: usize) -> usize
    ensures { result ≡ kept_of tag came }
{
    match Tag::of(tag) {
        Some(Tag::Passed) => came.min(HEADER),
        _ => came,
    }
}

// The bytes that come next are put behind those that are kept, until so many are kept. Byte by byte: of a copy of
// slices the compiler may make a call of memmove, which a program in C would have to bring.
fn keep(kept: &mut [u8], came: usize, part: &[u8], count: usize)
    requires { (count ≤ length kept.old) × (count ≤ came + length part.now) }
    ensures { Behind kept.old came part.now count kept.new }
{
    for i in came..count {
        kept[i] = part[i - came];
    }
}

// How many bytes are wanted of an unfinished field: up to the end of its length, and then up to its own.
#[tactic(auto, unfolding(crate::specs::Kept::wanted_of))]
fn wanted(kept: &[u8], came: usize) -> usize
    requires { (3 ≤ length kept.now) × (came ≤ 2 + length_in kept.now) }
    ensures { result ≡ wanted_of kept.now came }
{
    if came < HEADER {
        return HEADER - came;
    }
    HEADER + log_bytes::length_in(kept) - came
}

// The first bytes of a part are kept if no more of a field are ever kept, whether it is cut there or not: so what is
// known of it is handed on as it is, and a whole one is not looked at twice.
fn keep_first(part: &[u8], kept: &mut [u8])
    requires { (length kept.old ≡ 13) × (0 < length part.now) }
    ensures { FirstKept kept.old part.now kept.new }
{
    let count = kept_of(part[0], part.len());
    if count <= FIELD_ROOM {
        keep(kept, 0, part, count);
    }
}

// A field that is not finished: how far its log has been read, the field's offset, how many of its bytes have come, and
// those that are kept.
#[derive(Clone, Copy)]
pub struct Reader {
    pub stage: Stage,
    pub at: u64,
    pub came: usize,
    pub kept: [u8; FIELD_ROOM],
}

// What a part of a log brings: how many of its bytes belong to the field, and what the field says where it is whole
// with them.
#[derive(Clone, Copy)]
pub struct Read {
    pub taken: usize,
    pub event: Option<Event>,
}

impl Reader {
    ghost use Rattle.log_bytes.specs.declared.Next.TheVariants.{Unfinished as unfinished};
    ghost use Rattle.log_bytes.specs.Format.{next_in};
    ghost use Rattle.log_bytes.specs.Rows.{end_in};
    ghost use Rattle.fragments.specs.Kept.{is_fit};
    ghost use Rattle.fragments.specs.Reading.{ReadOn};
    ghost use Rattle.fragments.specs.Readers.{before_log, keeping, next_told, after_read};

    // Before a log's first byte.
    pub fn begin() -> Reader
        ensures { result ≡ before_log }
    {
        Reader {
            stage: Stage::BeforeL,
            at: 0,
            came: 0,
            kept: [0; FIELD_ROOM],
        }
    }

    // Whether what is kept can be part of a field: it is not finished, and breaks nothing. It has its room by type.
    #[tactic(auto, unfolding(crate::specs::Kept::is_fit))]
    pub fn is_fit(&self) -> bool
        ensures fit { result ≡ is_fit self.now.at self.now.kept self.now.came self.now.stage }
        ensures sized { length self.now.kept ≡ 13 }
    {
        let next = log_bytes::next_in(&self.kept, self.came, self.at, self.stage);
        matches!(next, Next::Unfinished(_)) && self.at <= numbers::LOG_END
    }

    // How the log ends where no byte comes any more. What is kept has its room by type.
    pub fn end(&self) -> End
        ensures ends { result ≡ end_in self.now.at self.now.came self.now.stage }
        ensures sized { length self.now.kept ≡ 13 }
    {
        log_bytes::end_in(self.at, self.came, self.stage)
    }

    // The first bytes of a field: where it is not finished in this part of the log, they are kept.
    fn read_first(&mut self, part: &[u8]) -> Next
        requires { (0 < length part.now) × (self.old.came ≡ 0) }
        ensures read { ReadOn self.old.at self.old.stage self.old.kept self.old.came part.now result self.new.kept }
        ensures rest { self.new ≡ keeping self.old self.new.kept }
    {
        keep_first(part, &mut self.kept);
        log_bytes::next_in(part, part.len(), self.at, self.stage)
    }

    // The bytes that come next of a field that is not finished.
    fn read_rest(&mut self, part: &[u8]) -> Next
        requires { (0 < length part.now) × ((0 < self.old.came)
            × (next_in self.old.at self.old.kept self.old.came self.old.stage ≡ unfinished self.old.came)) }
        ensures read { ReadOn self.old.at self.old.stage self.old.kept self.old.came part.now result self.new.kept }
        ensures rest { self.new ≡ keeping self.old self.new.kept }
    {
        let came = self.came;
        let now = came + wanted(&self.kept, came).min(part.len());
        let count = kept_of(self.kept[0], now);
        keep(&mut self.kept, came, part, count);
        log_bytes::next_in(&self.kept, now, self.at, self.stage)
    }

    // What is known of the field by the part of the log that comes next. In line, as `read_on` is: what a field says
    // must not be copied on its way to the player.
    #[inline(always)]
    fn next(&mut self, part: &[u8]) -> Next
        requires { (0 < length part.now)
            × (next_in self.old.at self.old.kept self.old.came self.old.stage ≡ unfinished self.old.came) }
        ensures read { ReadOn self.old.at self.old.stage self.old.kept self.old.came part.now result self.new.kept }
        ensures rest { self.new ≡ keeping self.old self.new.kept }
    {
        if self.came == 0 {
            return self.read_first(part);
        }
        self.read_rest(part)
    }

    // Reads on in the part of the log that comes next. Where the log ends with it, the reader is as it was. It is
    // changed where it lies: a copy of it that is stored back would be read again before it has left the processor.
    #[inline(always)]
    pub fn read_on(&mut self, part: &[u8]) -> Result<Read, End>
        requires { (0 < length part.now)
            × (next_in self.old.at self.old.kept self.old.came self.old.stage ≡ unfinished self.old.came) }
        ensures read { ReadOn self.old.at self.old.stage self.old.kept self.old.came part.now
            (next_told result self.old.came) self.new.kept }
        ensures after { self.new ≡ after_read result self.old self.new.kept }
    {
        let came = self.came;
        let kept = self.kept;
        match self.next(part) {
            Next::Ends(end) => {
                self.kept = kept;
                Err(end)
            }
            Next::Unfinished(now) => {
                self.came = now;
                Ok(Read {
                    taken: now - came,
                    event: None,
                })
            }
            Next::GoesOn(event, size) => {
                self.stage = log_bytes::stage_after(self.stage, event);
                self.at += size as u64;
                self.came = 0;
                Ok(Read {
                    taken: size - came,
                    event: Some(event),
                })
            }
        }
    }
}
