//! What no contract claims: the cases as bytes and text, that calls succeed, and what a failing
//! device leaves.

mod building;
mod case_rows;
mod cases;
mod commands;
mod failing_takers;
mod headers;
mod images;
mod large_parts;
mod long_parts;
mod long_table;
mod unpacking;
mod zeros;
