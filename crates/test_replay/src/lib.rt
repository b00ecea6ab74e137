// What the programs that run lists of vectors share: the lines of a text, hexadecimal columns, the
// cases of a stream, and the reading, the count and the report of a list.
#![tactic(auto)]

mod cases;
mod list;
mod print;
mod text;

pub use cases::{Case, first_case, first_numbers, for_each_case, samples_of};
pub use list::{Tally, buffer, count_rows, read, report, run_list};
pub use print::{print_bytes, print_samples};
pub use text::{hex, hex_at, hex32, hex32_at, is_row, line_length};
