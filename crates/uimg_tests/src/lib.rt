//! Tests of what no command line shows: devices and memory that fail, counts of requested and held
//! bytes, clocks, and calls of the library. The command lines are in `cases/`.
#![tactic(auto)]

#[cfg(test)]
mod tests;
