//! The listings of the images that are made.
use uimg_base_tests::samples::listings::{ABC_LISTING, THREE_PART_LISTING};

/// The listing of a FIT image of one kernel with four hashes.
pub(super) const DEMO_LISTING: &str = "FIT description: demo
Created:         Thu Jan  1 00:00:00 1970
 Image 0 (kernel)
  Description:  k
  Created:      Thu Jan  1 00:00:00 1970
  Type:         Kernel Image
  Compression:  uncompressed
  Data Size:    3 Bytes = 0.00 KiB = 0.00 MiB
  Architecture: AArch64
  OS:           Linux
  Load Address: 0x00080000
  Entry Point:  0x00080000
  Hash algo:    crc32
  Hash value:   352441c2
  Hash algo:    md5
  Hash value:   900150983cd24fb0d6963f7d28e17f72
  Hash algo:    sha1
  Hash value:   a9993e364706816aba3e25717850c26c9cd0d89d
  Hash algo:    sha256
  Hash value:   ba7816bf8f01cfea414140de5dae2223b00361a396177a9cb410ff61f20015ad
 Default Configuration: 'conf'
 Configuration 0 (conf)
  Description:  c
  Kernel:       kernel
";

pub(super) fn listing_named(name: &str) -> &'static str {
    match name {
        "abc-kernel" => ABC_LISTING,
        "three-part-multi" => THREE_PART_LISTING,
        "four-hash-fit" => DEMO_LISTING,
        _ => "",
    }
}
