// The fields of a frame that hands in a text, its table and a window, and what it asks.
#![tactic(auto)]

ghost use Rattle.std.specs.Prelude.{◌≤◌, ◌≡◌, IfSome, length};

use frames::{read_byte, read_length, read_number, read_numbers, read_part};

// How much of the text's and of the table's buffer is filled.
#[derive(Clone, Copy)]
pub struct Described {
    pub text: usize,
    pub numbers: usize,
}

// Reads text and table, the second through a buffer of bytes.
pub fn text_and_table(text: &mut [u8], table: &mut [i64], block: &mut [u8]) -> Option<Described>
    ensures { IfSome result (λ d. (d.text ≤ length text.old) × (d.numbers ≤ length table.old)) }
{
    let size = read_part(text)?;
    let numbers = read_numbers(table, block)?;
    Some(Described {
        text: size,
        numbers,
    })
}

// A window's space and first address, and how much of its buffer is filled.
#[derive(Clone, Copy)]
pub struct Held {
    pub space: u64,
    pub first: u64,
    pub window: usize,
}

// Reads a window.
pub fn window_of(window: &mut [u8]) -> Option<Held>
    ensures { IfSome result (λ h. h.window ≤ length window.old) }
{
    let space = read_number()?;
    let first = read_number()?;
    let size = read_part(window)?;
    Some(Held {
        space,
        first,
        window: size,
    })
}

// How much of the journal's buffer is filled, and the session value.
#[derive(Clone, Copy)]
pub struct Kept {
    pub journal: usize,
    pub session: u64,
}

// Reads a journal and a session value.
pub fn journal_of(journal: &mut [u8]) -> Option<Kept>
    ensures { IfSome result (λ k. k.journal ≤ length journal.old) }
{
    // The session value is read behind a journal that is too long, too: what is taken from the input stays the same.
    let size = read_part(journal);
    let session = read_number()?;
    Some(Kept {
        journal: size?,
        session,
    })
}

// How many operations there are: 1,000 at most.
#[tactic(auto, using(frames::proofs::Kept::kept))]
pub fn operation_count() -> Option<usize>
    ensures { IfSome result (λ n. n ≤ 1000) }
{
    let n = read_length(1000)?;
    Some(n as usize)
}

// What is asked of a variable, by a frame or an operation of this kind: to write an int of this sign and magnitude, an event ID, which is the magnitude,
// or a text, which fills so much of its buffer.
#[derive(Clone, Copy)]
pub struct Asked {
    pub kind: u8,
    pub n: u64,
    pub negative: bool,
    pub magnitude: u64,
    pub size: usize,
}

fn number(kind: u8, n: u64, negative: bool, magnitude: u64) -> Asked
    ensures { result.size ≡ 0 }
{
    Asked {
        kind,
        n,
        negative,
        magnitude,
        size: 0,
    }
}

fn read_event(n: u64) -> Option<Asked>
    ensures { IfSome result (λ a. a.size ≡ 0) }
{
    let id = read_number()?;
    Some(number(b'E', n, false, id))
}

// A sign, 0 or 1, and a magnitude.
fn read_int(n: u64) -> Option<Asked>
    ensures { IfSome result (λ a. a.size ≡ 0) }
{
    let sign = read_byte()?;
    if 1 < sign {
        return None;
    }
    let magnitude = read_number()?;
    Some(number(b'I', n, sign == 1, magnitude))
}

fn read_text(n: u64, buffer: &mut [u8]) -> Option<Asked>
    ensures { IfSome result (λ a. a.size ≤ length buffer.old) }
{
    let size = read_part(buffer)?;
    Some(Asked {
        kind: b'S',
        n,
        negative: false,
        magnitude: 0,
        size,
    })
}

// Reads what is to be written to variable `n`.
pub fn read_value(kind: u8, n: u64, buffer: &mut [u8]) -> Option<Asked>
    ensures { IfSome result (λ a. a.size ≤ length buffer.old) }
{
    match kind {
        b'I' => read_int(n),
        b'E' => read_event(n),
        b'S' => read_text(n, buffer),
        _ => None,
    }
}

// Reads an operation: `U` is alone, the others name a variable and have a value.
pub fn read_operation(buffer: &mut [u8]) -> Option<Asked>
    ensures { IfSome result (λ a. a.size ≤ length buffer.old) }
{
    let kind = read_byte()?;
    if kind == b'U' {
        return Some(number(kind, 0, false, 0));
    }
    let n = read_number()?;
    read_value(kind, n, buffer)
}
