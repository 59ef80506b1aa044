//! The calls of `uimg_surface` on images, each tried once, a file for each crate. Faults are matched
//! by all their names.

mod base;
mod blob;
mod fit;
mod its;
mod legacy;
mod samples;
mod tool;
