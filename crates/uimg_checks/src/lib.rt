//! Checks images of both formats, over any source and in memory. The result is a status, a word, a
//! line of text, a JSON object, or a test case of a report. Counts the payloads of an image in memory.
#![tactic(auto)]

mod answer;
mod choosing;
mod counting;
mod ends;
mod finding;
mod judging;
mod line;
mod object;
mod references;
mod signatures;
mod statuses;
mod test_report;

pub use answer::{Answer, Configurations, Format, Signed, Stop};
pub use choosing::configuration_images;
pub use counting::count_in_memory;
pub use ends::{CHANGED, NOT_UTF8, Names, answer_of_fault, answer_of_line};
pub use finding::{Checked, check};
pub use judging::{Terms, answer_of_source};
pub use line::{Line, line_text};
pub use object::object_text;
pub use references::{Missing, Reference, find_missing};
pub use statuses::status_of_fault;
pub use test_report::TestReport;
