//! Trial programs: each reads calls line by line from standard input, and prints for each line what it answers, on one line.
//!
//! - An empty line and a comment, which begins with `#`, are printed as they stand: so the lines of input and output go side by side.
//! - Any other line is the name of a call, a space, and what the call is given. Of several things that are given, those that are one
//!   word come first, with a space behind each. Texts follow, with ` | ` between two.
//! - What is given is written with escapes: `\n`, `\r`, `\t`, `\\`, `\u{85}` for the character with that hexadecimal number,
//!   `\{999 ab}` for 999 times what is written as `ab`, and in it `\#` for the number of the repetition, from 0. A repetition holds
//!   no `}`, and so neither a `\u{85}` nor another repetition.
//! - An answer is printed as the value that it is in Rust, in the form `{:?}`, where a program does not say otherwise. A line that is no
//!   call gives `no call`.
//! - Memory may run out for a line. `scripts/site/refusals.sh` lets that happen, growth by growth: the line then tells of it, and the next
//!   lines show what the call has changed.
#![tactic(auto)]

pub mod answer;
pub mod leads;
pub mod line;
pub mod run;
pub mod written;
