// Entries of a journal: number and size, four bytes each, then the old bytes; one behind the other from byte 0, in the first 65,536 bytes of the journal.
#![tactic(auto)]

ghost use Rattle.std.specs.Prelude.{◌≡◌, ◌+◌, ◌≤◌, min, length};
ghost use Rattle.undo_model.specs.Journal.{entry_bytes, room};
ghost use Rattle.undo_entries.specs.Begun.{begun_of, begun, stands_in, entry_for, last_of, last_in};

use values::{number_in, put_number, put_text};

// "the first 65,536 bytes of a lent journal"
const ROOM: usize = 65536;

// "up to 64 accepted edits"
const MOST: u64 = 64;

// The bytes of an entry before the old ones.
pub const HEAD: usize = 8;

// Number and size of an entry, and where its old bytes begin.
#[derive(Clone, Copy, PartialEq, Eq)]
pub struct Last {
    pub number: u64,
    pub size: usize,
    pub from: usize,
}

// How many bytes of a journal of this length are its room.
fn room_of(length: usize) -> usize
    ensures { result ≡ min 65536 length }
{
    length.min(ROOM)
}

// Where entry `k` begins in the room, if all entries before it lie there.
#[tactic(auto, using(crate::proofs::Along::walk_loop))]
fn beginning_of(room: &[u8], k: u64) -> Option<usize>
    ensures { begun_of result ≡ begun room.now k }
{
    let length = room.len();
    let mut at = 0usize;
    for _ in 0..k {
        let left = length - at;
        if left < HEAD {
            return None;
        }
        let from = at + 4;
        let to = at + HEAD;
        let size = number_in(&room[from..to]);
        let rest = (length - to) as u64;
        if rest < size {
            return None;
        }
        at = to + (size as usize);
    }
    Some(at)
}

// Where the entry of one more edit begins in the room, with old bytes of this size: nowhere where 64 edits stand, or where it would not end in the room.
#[tactic(auto, using(crate::proofs::Placing::placing))]
fn place_in(room: &[u8], session: u64, size: usize) -> Option<usize>
    ensures { begun_of result ≡ stands_in room.now session size }
{
    if MOST <= session {
        return None;
    }
    let at = beginning_of(room, session)?;
    let left = room.len() - at;
    if left < HEAD {
        return None;
    }
    if left - HEAD < size {
        return None;
    }
    Some(at)
}

// The same in the room of a journal.
#[tactic(auto, using(crate::proofs::Placing::lent))]
pub fn place_for(journal: &[u8], session: u64, size: usize) -> Option<usize>
    ensures { begun_of result ≡ stands_in (room journal.now) session size }
{
    let end = room_of(journal.len());
    place_in(&journal[0..end], session, size)
}

// Stores an entry: number, size and old bytes.
#[tactic(auto, using(crate::proofs::Keeping::keeping))]
pub fn keep(entry: &mut [u8], n: u64, old: &[u8])
    requires { length entry.old ≡ 8 + length old.now }
    ensures { entry.new ≡ entry_bytes (entry_for n old.now) }
{
    let end = entry.len();
    put_number(&mut entry[0..4], n);
    put_number(&mut entry[4..HEAD], old.len() as u64);
    put_text(&mut entry[HEAD..end], old);
}

// The latest entry in the room, where so many edits stand.
#[tactic(auto, using(crate::proofs::Placing::latest))]
fn last_in(room: &[u8], session: u64) -> Option<Last>
    requires { 1 ≤ session }
    ensures { last_of result ≡ last_in room.now session }
{
    let at = beginning_of(room, session - 1)?;
    let left = room.len() - at;
    if left < HEAD {
        return None;
    }
    let middle = at + 4;
    let from = at + HEAD;
    let number = number_in(&room[at..middle]);
    let size = number_in(&room[middle..from]);
    let rest = (left - HEAD) as u64;
    if rest < size {
        return None;
    }
    Some(Last {
        number,
        size: size as usize,
        from,
    })
}

// The same in the room of a journal.
#[tactic(auto, using(crate::proofs::Placing::lent))]
pub fn last_of(journal: &[u8], session: u64) -> Option<Last>
    requires { 1 ≤ session }
    ensures { last_of result ≡ last_in (room journal.now) session }
{
    let end = room_of(journal.len());
    last_in(&journal[0..end], session)
}
