// Lists the variables of a description that stands on standard input: their count and a line for each, or the refusal. The text is planned into
// a table of 1,024 records, and the variables are read from that table alone, many at a time.
#![tactic(auto)]

pub mod input;

ghost use Rattle.std.specs.Prelude.{◌≡◌, true, ◌*◌, ◌/◌, ◌≤◌, length};
ghost use Rattle.cdi.specs.Plans.{is_plan};

use input::read_text;
use lines::{put_count, put_refusal};
use list_lines::lines_from;
use plan::plan;
use std::io::Stdin;
use terms::{FIELDS, MOST_VARIABLES, TEXT_LIMIT};

// Writes the lines of all variables of a plan.
fn write_lines(table: &[i64], numbers: &mut [u64], out: &mut [u8]) -> bool
    requires { (is_plan table.now ≡ true) × (length numbers.old / 5 * 92 ≤ length out.old) }
{
    let mut n = 0;
    // The step is as many variables as a batch had room for, so no `for` counts them.
    while n < MOST_VARIABLES {
        let told = lines_from(table, n, numbers, out);
        if !io::write_all(1, &out[..told.size]) {
            return false;
        }
        if told.count == 0 {
            return true;
        }
        n += told.count as u64;
    }
    true
}

fn write_refusal(number: usize, place: usize, out: &mut [u8]) -> bool
    requires { 64 ≤ length out.old }
{
    let size = put_refusal(out, number, place);
    io::write_all(1, &out[0..size])
}

fn write_count(variables: u64, out: &mut [u8]) -> bool
    requires { 64 ≤ length out.old }
{
    let size = put_count(out, variables);
    io::write_all(1, &out[0..size])
}

// Plans the text and writes what there is to say of it; false where it couldn't be written.
fn answer(text: &[u8], table: &mut [i64], numbers: &mut [u64], out: &mut [u8]) -> bool
    requires { (64 ≤ length out.old) × (length numbers.old / 5 * 92 ≤ length out.old) }
{
    match plan(text, table) {
        Ok(found) => {
            let size = FIELDS * found.records;
            write_count(found.variables, out) && write_lines(&table[0..size], numbers, out)
        }
        Err(refusal) => write_refusal(refusal.number, refusal.place, out),
    }
}

// What went wrong goes to standard error.
fn tell(what: &[u8]) {
    io::write_all(2, what);
}

fn run(input: Stdin, text: &mut [u8], table: &mut [i64], numbers: &mut [u64], out: &mut [u8])
    requires { (64 ≤ length out.old) × (length numbers.old / 5 * 92 ≤ length out.old) }
{
    let Some(size) = read_text(input, text) else {
        tell(b"list: standard input can't be read\n");
        return;
    };
    if !answer(&text[..size], table, numbers, out) {
        tell(b"list: standard output can't be written\n");
    }
}

fn main(rt: HostRuntime) {
    let mut text = [0u8; TEXT_LIMIT];
    let mut table = [0i64; 8192];
    let mut numbers = [0u64; 5120];
    let mut out = [0u8; 94208];
    run(rt.stdin(), &mut text, &mut table, &mut numbers, &mut out);
}
