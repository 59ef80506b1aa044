//! What the exports report, for C.

/// The end of a command on an image, and the length of its text.
#[repr(C)]
#[derive(Drop)]
pub struct UimgReport {
    /// How the command ended: 0 done, 1 not right or refused, 2 keys refused, 3 out of memory.
    pub status: u32,

    /// The fault's letter, as its ASCII code times 256, plus its number; 0 without a fault.
    pub fault: u32,

    /// The offset of a blob's fault in the image, 0 for any other fault.
    pub place: u64,

    /// The length of the whole text, in bytes.
    pub needed: usize,

    /// How many of them were copied to the caller's memory.
    pub written: usize,

    /// The most bytes that the table of a FIT image's nodes took, with a window of 8192 bytes; 0 if
    /// memory was refused.
    pub peak: u64,
}

/// Where a payload is in an image.
#[repr(C)]
#[derive(Drop)]
pub struct UimgPayload {
    /// How the search ended: 0 found, 1 refused, 3 out of memory.
    pub status: u32,

    /// The fault's letter, as its ASCII code times 256, plus its number; 0 without a fault.
    pub fault: u32,

    /// The offset of a blob's fault in the image, 0 for any other fault.
    pub place: u64,

    /// The offset of the payload in the image; 0 if none was found.
    pub start: usize,

    /// The length of the payload in bytes; 0 if none was found.
    pub size: usize,

    /// The most bytes that the table of a FIT image's nodes took, with a window of 8192 bytes.
    pub peak: u64,
}

/// The number of images or parts.
#[repr(C)]
#[derive(Drop)]
pub struct UimgCount {
    /// How the count ended: 0 counted, 1 refused, 3 out of memory.
    pub status: u32,

    /// The fault's letter, as its ASCII code times 256, plus its number; 0 without a fault.
    pub fault: u32,

    /// The offset of a blob's fault in the image, 0 for any other fault.
    pub place: u64,

    /// The number; 0 if they were not counted.
    pub count: usize,

    /// The most bytes that the table of a FIT image's nodes took, with a window of 8192 bytes.
    pub peak: u64,
}
