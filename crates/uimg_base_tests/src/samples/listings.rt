//! Listings of the images in `legacy`.

/// The listing of the kernel of three bytes.
pub const ABC_LISTING: &str = "Image Name:   01234567890123456789012345678901
Created:      Tue Nov 14 22:13:20 2023
Image Type:   AArch64 Linux Kernel Image (uncompressed)
Data Size:    3 Bytes = 0.00 KiB = 0.00 MiB
Load Address: 00080000
Entry Point:  00080000
";

/// The listing of the image of three parts.
pub const THREE_PART_LISTING: &str = "Image Name:   
Created:      Thu Jan  1 00:00:00 1970
Image Type:   PowerPC Linux Multi-File Image (gzip compressed)
Data Size:    29 Bytes = 0.03 KiB = 0.00 MiB
Load Address: 00000000
Entry Point:  00000000
Contents:
   Image 0: 3 Bytes = 0.00 KiB = 0.00 MiB
   Image 1: 4 Bytes = 0.00 KiB = 0.00 MiB
   Image 2: 5 Bytes = 0.00 KiB = 0.00 MiB
";
