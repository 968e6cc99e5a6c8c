// Plays a log as it comes: the log on standard input, its listing on standard output, each line as soon as its field
// has come. A log that cannot be read has no last line. What fails is said on standard error, and the exit status is 0
// all the same.
#![tactic(auto)]

ghost use Rattle.std.specs.Prelude.{◌≡◌, false, [], ◌+◌, ◌≤◌, length, OnOk, OnErr};
ghost use Rattle.listing_rules.specs.Listing.{listing_of};
ghost use Rattle.player.specs.Feeding.{feed_code, held, offset_of, rest_of};
ghost use Rattle.log_input.specs.Telling.{TellsPart, TellsWhole};

use numbers::TABLE_ENTRIES;
use player::State;
use std::io;
use std::io::{Read, Write};

// The bytes that are read at a time at most, and the bytes of the buffer for lines.
const ROOM: usize = 65536;

// Why a log has no whole listing.
#[derive(Drop)]
enum Failure {
    Unread(io::Error),
    Unwritten(io::Error),
}

// Writes the lines of a fragment, a full buffer at a time. A write that fails ends it, so that what was written is
// always the listing's beginning; the tables fit the state all the same.
fn list_fragment<W: Write>(
    listing: &mut W,
    fragment: &[u8],
    ids: &mut [u32],
    lens: &mut [u16],
    out: &mut [u8],
    s: &mut State,
) -> io::Result<()>
    requires room { 64 ≤ length out.old }
    requires fit { feed_code s.old ids.old lens.old ≡ 0 }
    requires tables { (length ids.old ≡ 2048) × (length lens.old ≡ 2048) }
    ensures played { OnOk result ((feed_code s.new ids.new lens.new ≡ 0)
        × (s.new.over ≡ false → offset_of s.new ≡ offset_of s.old + length fragment.now)) }
    ensures listed { OnOk result (TellsPart rest_of (W.contents listing.old) (W.contents listing.new)
        (held s.old ids.old lens.old) (held s.new ids.new lens.new) fragment.now []) }
    ensures failed { OnErr result (feed_code s.new ids.new lens.new ≡ 0) }
{
    let mut taken: usize = 0;
    while taken < fragment.len() && !s.over {
        let fed = player::feed(s, &fragment[taken..], ids, lens, out).unwrap();
        listing.write_all(&out[..fed.used])?;
        taken += fed.taken;
    }
    Ok(())
}

// Plays the log fragment by fragment. The last line is written only where the log has ended.
fn list_log<R: Read, W: Write>(log: &mut R, listing: &mut W) -> Result<(), Failure>
    ensures { OnOk result (TellsWhole listing_of (R.remaining log.old) (W.contents listing.old)
        (W.contents listing.new)) }
{
    let mut ids = [0u32; TABLE_ENTRIES];
    let mut lens = [0u16; TABLE_ENTRIES];
    let mut fragment = [0u8; ROOM];
    let mut out = [0u8; ROOM];
    let mut state = player::begin();
    while !state.over {
        let n = log_input::next_fragment(log, &mut fragment).map_err(Failure::Unread)?;
        if n == 0 {
            let fed = player::finish(&mut state, &ids, &lens, &mut out).unwrap();
            listing
                .write_all(&out[..fed.used])
                .map_err(Failure::Unwritten)?;
            return Ok(());
        }
        list_fragment(
            listing,
            &fragment[..n],
            &mut ids,
            &mut lens,
            &mut out,
            &mut state,
        )
        .map_err(Failure::Unwritten)?;
    }
    Ok(())
}

fn main(rt: HostRuntime) {
    let (mut log, mut listing) = (rt.stdin(), rt.stdout());
    let _ = match list_log(&mut log, &mut listing) {
        Ok(()) => Ok(()),
        Err(Failure::Unread(_)) => rt.eprintln("listing: the log cannot be read"),
        Err(Failure::Unwritten(_)) => rt.eprintln("listing: the listing cannot be written"),
    };
}
