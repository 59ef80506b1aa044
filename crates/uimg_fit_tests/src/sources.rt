//! Image-tree sources that tests of several modules use.

/// The source of the case four-hash-fit, which is `examples/kernel.its`.
pub const FOUR_HASH: &str = "/dts-v1/;
/ {
\tdescription = \"demo\";
\t#address-cells = <1>;
\timages {
\t\tkernel {
\t\t\tdescription = \"k\";
\t\t\tdata = /incbin/(\"abc.bin\");
\t\t\ttype = \"kernel\";
\t\t\tarch = \"arm64\";
\t\t\tos = \"linux\";
\t\t\tcompression = \"none\";
\t\t\tload = <0x80000>;
\t\t\tentry = <0x80000>;
\t\t\thash-1 { algo = \"crc32\"; };
\t\t\thash-2 { algo = \"md5\"; };
\t\t\thash-3 { algo = \"sha1\"; };
\t\t\thash-4 { algo = \"sha256\"; };
\t\t};
\t};
\tconfigurations {
\t\tdefault = \"conf\";
\t\tconf {
\t\t\tdescription = \"c\";
\t\t\tkernel = \"kernel\";
\t\t};
\t};
};
";
