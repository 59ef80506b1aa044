//! The facts of an image, as a JSON object.
#![tactic(auto)]

mod comparing;
mod configurations;
mod difference_lines;
mod facts;
mod fit;
mod forms;
mod legacy;
mod legacy_fields;
mod members;
mod placing;
mod reservations;
mod signatures;
mod statement;
mod statements;
mod texts;
mod value_texts;

pub use comparing::{CompareFault, Difference, compare};
pub use difference_lines::put_differences;
pub use legacy::legacy_text;
pub use legacy_fields::legacy_statements;
pub use statement::Statement;
pub use statements::fit_statements;
pub use texts::fit_text;
