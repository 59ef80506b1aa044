//! What both reading and building of FIT images use: faults, the words of a report, the span of a
//! payload, and digests by sets of algorithms.
//!
//! `specs/` defines what FIT images mean. A lemma shows that in a file whose blob is accepted each
//! name and each value is where its tree says (`proofs/ReadLaws.antt`).
//! `proofs/ReadingExamples.antt` of `uimg_engine` tries the definitions.
#![tactic(auto)]

mod algo_names;
mod algo_sets;
mod fault;
mod formats;
mod placement;
mod verdicts;

pub use algo_names::algo_by;
pub use algo_sets::{AlgoSet, Digests};
pub use fault::{Fault, FitFault};
pub use formats::begins_as_blob;
pub use placement::{AlignedPlacement, Placement, WORD_ALIGNMENT};
pub use verdicts::{Verdict, is_right, word_text};
