//! The tables of cases, by subject.

mod folders;
mod growths;
mod images;
mod inputs;
mod listings;
mod long_listings;
mod making_rows;
mod makings;
mod memory;
mod moments;
mod run_loops;
mod run_rows;
mod runs;
mod samples;
mod streams;
mod surface;
mod times;
mod worlds;
