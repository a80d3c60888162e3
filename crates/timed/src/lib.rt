// The end of the content and the check of its characters under C names, so that bench/ can time them. No part of the library.
#![tactic(auto)]

ghost use Rattle.std.specs.Prelude.{◌≡◌, length};
ghost use Rattle.cdi.specs.Text.{bad_character, is_utf8};
ghost use Rattle.text.specs.Answers.{end_answer, ending, place_of};
ghost use Rattle.timed.specs.Contents.{place_in, place_or, bad_in};

use text::{bad_behind, bad_character, content_end, examine, is_utf8};

// The place that an end tells, of the zero or of refusal 1.
#[tactic(auto, unfolding(text::specs::Answers::end_answer, crate::specs::Contents::place_in))]
fn place_of(end: Result<usize, usize>) -> usize
    ensures { result ≡ place_in (end_answer end) }
{
    match end {
        Ok(place) | Err(place) => place,
    }
}

// Where the content ends, or where refusal 1 stands.
#[unsafe(no_mangle)]
pub extern "C" fn timed_end(text: &[u8]) -> usize
    ensures { result ≡ place_in (ending text.now) }
{
    place_of(content_end(text))
}

// The first place where no allowed character stands, or the content's length.
#[unsafe(no_mangle)]
pub extern "C" fn timed_characters(content: &[u8]) -> usize
    ensures { result ≡ place_or (length content.now) (bad_character content.now) }
{
    bad_character(content).unwrap_or(content.len())
}

// Is it UTF-8?
#[unsafe(no_mangle)]
pub extern "C" fn timed_utf8(s: &[u8]) -> bool
    ensures { result ≡ is_utf8 s.now }
{
    is_utf8(s)
}

// Both as planning asks: the first place of the content where no allowed character stands, or its end.
#[unsafe(no_mangle)]
pub extern "C" fn timed_content(text: &[u8]) -> usize
    ensures { result ≡ bad_in text.now (ending text.now) }
{
    let told = examine(text);
    match told.end {
        Ok(end) => bad_behind(&text[0..end], told.run).unwrap_or(end),
        Err(place) => place,
    }
}
