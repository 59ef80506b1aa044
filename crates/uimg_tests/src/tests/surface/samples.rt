//! Samples that the calls are tried on.

/// A file, and a source of a FIT image that has it as its payload.
pub(super) const FILES: [(&[u8], &[u8]); 2] = [(b"abc.bin", b"abc"), (b"k.its", SOURCE)];

/// The source of a FIT image.
pub(super) const SOURCE: &[u8] = b"/dts-v1/;
/ {
\tdescription = \"demo\";
\timages {
\t\tkernel {
\t\t\tdata = /incbin/(\"abc.bin\");
\t\t\thash-1 { algo = \"crc32\"; };
\t\t};
\t};
};
";
