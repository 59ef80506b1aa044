//! Tables of cases, and the functions that play them. The panic names a row that fails.

mod answers;
mod fit;
mod signing;
mod tree;
