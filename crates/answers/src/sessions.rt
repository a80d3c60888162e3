// Frames `J`: a session, its operations in order, each on what the one before left.

ghost use Rattle.std.specs.Prelude.{◌≤◌, IfSome};

use answers_fields::{Asked, Held, journal_of, operation_count, read_operation};
use answers_out::lines::{Line, hashed, one, plain};
use answers_out::outcomes::tell_outcomes;
use answers_out::{tell, words};
use frames_hash::{hash_bytes, with_number};
use frames_signed::signed;
use refusals::Refusal;
use undo::{edit_event, edit_integer, edit_text, undo};

// ── operations ──

// Number and place of a refusal, 0 and 0 without one, and the session value.
#[derive(Clone, Copy)]
pub struct Done {
    pub number: usize,
    pub place: usize,
    pub session: u64,
}

// What a call says, and the session value: as before where it is refused.
fn told(outcome: Result<u64, Refusal>, before: u64) -> Done {
    match outcome {
        Ok(session) => Done {
            number: 0,
            place: 0,
            session,
        },
        Err(refusal) => Done {
            number: refusal.number,
            place: refusal.place,
            session: before,
        },
    }
}

// Calls for what is asked; a text to be written is the bytes.
fn call(
    text: &[u8],
    table: &[i64],
    asked: Asked,
    held: Held,
    window: &mut [u8],
    journal: &mut [u8],
    session: u64,
    bytes: &[u8],
) -> Result<u64, Refusal> {
    let n = asked.n;
    let space = held.space;
    let first = held.first;
    let magnitude = asked.magnitude;
    match asked.kind {
        b'U' => undo(text, table, space, first, window, journal, session),
        b'I' => edit_integer(
            text,
            table,
            n,
            space,
            first,
            window,
            journal,
            session,
            asked.negative,
            magnitude,
        ),
        b'E' => edit_event(
            text, table, n, space, first, window, journal, session, magnitude,
        ),
        _ => edit_text(
            text, table, n, space, first, window, journal, session, bytes,
        ),
    }
}

// The next operation; a text to be written is read into the lent buffer.
fn operation_by(
    text: &[u8],
    table: &[i64],
    held: Held,
    window: &mut [u8],
    journal: &mut [u8],
    session: u64,
    buffer: &mut [u8],
) -> Option<Done> {
    let asked = read_operation(buffer)?;
    let outcome = call(
        text,
        table,
        asked,
        held,
        window,
        journal,
        session,
        &buffer[..asked.size],
    );
    Some(told(outcome, session))
}

// The next operation.
fn operation(
    text: &[u8],
    table: &[i64],
    held: Held,
    window: &mut [u8],
    journal: &mut [u8],
    session: u64,
) -> Option<Done> {
    let mut buffer = [0u8; 70000];
    operation_by(text, table, held, window, journal, session, &mut buffer)
}

// The steps with one more: the session value and the hashes of window and journal.
fn stepped(steps: u64, session: u64, window: &[u8], journal: &[u8]) -> u64 {
    let so_far = with_number(steps, signed(session));
    let with_window = with_number(so_far, signed(hash_bytes(window)));
    with_number(with_window, signed(hash_bytes(journal)))
}

// The session value and the steps in the end.
#[derive(Clone, Copy)]
pub struct Left {
    pub session: u64,
    pub steps: u64,
}

// So many operations, with number and place of each refusal.
fn operations(
    text: &[u8],
    table: &[i64],
    held: Held,
    window: &mut [u8],
    journal: &mut [u8],
    session: u64,
    count: usize,
    numbers: &mut [usize; 1000],
    places: &mut [usize; 1000],
) -> Option<Left>
    requires { count ≤ 1000 }
{
    let mut stands = session;
    let mut steps = hash_bytes(b"");
    for i in 0..count {
        let done = operation(text, table, held, window, journal, stands)?;
        numbers[i] = done.number;
        places[i] = done.place;
        stands = done.session;
        steps = stepped(steps, stands, window, journal);
    }
    Some(Left {
        session: stands,
        steps,
    })
}

// ── the line ──

// ` SESSION WINDOW JOURNAL STEPS`, the end of the line
fn state(left: Left, window: &[u8], journal: &[u8]) -> Line
    ensures { result.count ≤ 4 }
{
    tell(hashed(one(words::BLANK, left.session), hash_bytes(window)));
    tell(hashed(plain(words::NOTHING), hash_bytes(journal)));
    hashed(plain(words::NOTHING), left.steps)
}

// So many operations, and `session OUTCOMES SESSION WINDOW JOURNAL STEPS`.
fn answered(
    text: &[u8],
    table: &[i64],
    held: Held,
    window: &mut [u8],
    journal: &mut [u8],
    session: u64,
    count: usize,
) -> Option<Line>
    requires { count ≤ 1000 }
    ensures { IfSome result (λ line. line.count ≤ 4) }
{
    let mut numbers = [0usize; 1000];
    let mut places = [0usize; 1000];
    let left = operations(
        text,
        table,
        held,
        window,
        journal,
        session,
        count,
        &mut numbers,
        &mut places,
    )?;
    tell(plain(words::SESSION));
    tell_outcomes(&numbers, &places, count);
    Some(state(left, window, journal))
}

// The rest of a frame behind its window; the journal is read into the lent buffer.
fn from_journal(
    text: &[u8],
    table: &[i64],
    held: Held,
    window: &mut [u8],
    journal: &mut [u8],
) -> Option<Line>
    ensures { IfSome result (λ line. line.count ≤ 4) }
{
    let kept = journal_of(journal)?;
    let count = operation_count()?;
    answered(
        text,
        table,
        held,
        window,
        &mut journal[..kept.journal],
        kept.session,
        count,
    )
}

// The rest of a frame `J` behind its window. The journal's buffer is as long as a frame may ask.
pub fn session(text: &[u8], table: &[i64], held: Held, window: &mut [u8]) -> Option<Line>
    ensures { IfSome result (λ line. line.count ≤ 4) }
{
    let mut journal = [0u8; 70000];
    from_journal(text, table, held, window, &mut journal)
}
