//! Numbers, names and times as texts, as in U-Boot and GNU `date`.

mod all_names;
mod names;
mod numbers;
