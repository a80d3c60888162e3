// The library as C and other languages link it. Every call has a C name, takes slices as a pointer and a length, and returns 0 or the number of the
// refusal; but for those whose names end in `_checked` none asks anything of its caller. Each calls the function of its name in `planksling` and
// promises what that one does.
// One function for each name, with the clauses of `planksling` word for word: the C interface needs it.
#![tactic(auto)]

pub mod locating; // variables of a table alone
pub mod planning; // texts and tables
pub mod reading; // values out of a window
pub mod sessions; // edits that can be taken back
pub mod writing; // values into a window
