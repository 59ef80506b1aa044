//! Checks, surveys and unpacks FIT images.
#![tactic(auto)]

mod checking;
mod counting;
mod named;
mod surveying;
mod unpacking;
mod vouching;
mod wrong_hashes;

pub use checking::{Finding, check, check_in};
pub use counting::count_images;
pub use named::{locate_name, locate_named};
pub use surveying::{
    ConfigurationFacts, FullSurvey, HashFacts, ImageFacts, Survey, SurveyFault, read_bytes, survey,
    survey_with_properties,
};
pub use unpacking::{
    MemTake, MemTaker, NodeName, Refusal, Taker, Unpacked, Vouched, Wanted, unpack,
};
