//! FIT images: reading, filling and building.

mod build_rows;
mod device_rows;
mod failing_takers;
mod fill_rows;
mod images;
mod making;
mod read_rows;
mod survey_rows;
mod tree_rows;
mod unpack_rows;
mod update_rows;
