// The library's calls. Every call has the name under which C links it (`planksling_c`), and returns 0 or the number of the refusal; but for those
// whose names end in `_checked` none asks anything of its caller.
#![tactic(auto)]

pub mod locating; // variables of a table alone
pub mod planning; // texts and tables
pub mod reading; // values out of a window
pub mod sessions; // edits that can be taken back
pub mod writing; // values into a window
