//! The map of an image's file: what is where in it, and which bytes are in nothing. `map_of`
//! returns it, `put_lines` and `put_picture` write it.
#![tactic(auto)]

mod arranging;
mod bar;
mod blocks;
mod contents;
mod fault;
mod fdt_header;
mod fit_contents;
mod images;
mod legacy_contents;
mod lines;
mod map;
mod picture;
mod place;
mod reservations;
mod row;
mod signatures;
mod signing;
mod stop;
mod texts;
mod thing;
mod xml;

pub use arranging::arrange;
pub use bar::{Bar, bar_of};
pub use blocks::blocks_of;
pub use contents::Label;
pub use fault::MapFault;
pub use lines::put_lines;
pub use map::{Map, map_of};
pub use picture::put_picture;
pub use reservations::end_of_reservations;
pub use row::Row;
pub use stop::MapStop;
pub use thing::Thing;
