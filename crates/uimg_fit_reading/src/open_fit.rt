//! A FIT image that was opened.

use std::alloc::Allocator;
use uimg_base::{Room, Source};
use uimg_blob_reading::Blob;

/// A FIT image whose blob was indexed.
#[derive(Drop)]
pub(crate) struct OpenFit<'a, S: Source, A: Allocator> {
    pub(crate) source: &'a mut S,
    pub(crate) blob: Blob,
    pub(crate) room: &'a mut Room<A>,
}
