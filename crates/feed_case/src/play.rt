// A log that comes in fragments, through a player.
use crate::input;
use crate::players::Player;
use numbers::TABLE_ENTRIES;
use std::io;
use std::io::{Read, Write};

// Feeds a fragment, an empty one too, until it is taken. A call that takes nothing ends it. A write that fails is not
// tried again: whoever reads the answers finds them short.
fn feed_all<W: Write, P: Player>(
    player: &mut P,
    answers: &mut W,
    fragment: &[u8],
    ids: &mut [u32],
    lens: &mut [u16],
    out: &mut [u8],
) {
    let mut taken: usize = 0;
    loop {
        let Ok(fed) = player.feed(&fragment[taken..], ids, lens, out) else {
            return;
        };
        let _ = answers.write_all(&out[..fed.used]);
        taken += fed.taken;
        if fed.taken == 0 || fragment.len() <= taken {
            return;
        }
    }
}

// Writes what is left at the log's end, until nothing is. A call that is refused ends it.
fn finish_all<W: Write, P: Player>(
    player: &mut P,
    answers: &mut W,
    ids: &[u32],
    lens: &[u16],
    out: &mut [u8],
) {
    for _ in 0..u64::MAX {
        if player.is_over() {
            return;
        }
        let Ok(fed) = player.finish(ids, lens, out) else {
            return;
        };
        let _ = answers.write_all(&out[..fed.used]);
    }
}

// Plays a case, up to the end of its log, through a lent buffer. Of a case that is not whole nothing more is written.
pub fn play<R: Read, W: Write, P: Player + Drop>(
    cases: &mut R,
    answers: &mut W,
    out: &mut [u8],
    first: u64,
) -> io::Result<()> {
    let mut ids = [0u32; TABLE_ENTRIES];
    let mut lens = [0u16; TABLE_ENTRIES];
    let mut bytes = [0u8; input::MOST];
    let mut player = P::begin_at(first);
    for _ in 0..u64::MAX {
        let Some(n) = input::fragment(cases, &mut bytes)? else {
            finish_all(&mut player, answers, &ids, &lens, out);
            return Ok(());
        };
        feed_all(&mut player, answers, &bytes[..n], &mut ids, &mut lens, out);
    }
    Ok(())
}
