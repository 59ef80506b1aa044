//! The notes after the options, in the help of the program and of each command.

pub(super) const PROGRAM_NOTES: &str = "Examples:
  uimg dumpimage -l kernel.itb
  uimg mkimage --help";

pub(super) const MKIMAGE_NOTES: &str = "Short names:
  <arch>  arm x86 mips mips64 ppc powerpc sandbox arm64 x86_64 riscv
  <os>    netbsd linux vxworks qnx u-boot rtems plan9 arm-trusted-firmware tee
          opensbi efi
  <type>  standalone kernel ramdisk multi firmware script filesystem
          flat_dt (not for -d) kernel_noload
  <comp>  none gzip bzip2 lzma lzo lz4 zstd

A value that begins with '-' follows its option directly, as in -n-x. -f ignores
the options from -A to -n, and -d ignores -E and -p. -p 0 is the same as no -p.
Relative file names in the image source start from its folder.

Examples:
  uimg mkimage -A arm64 -C none -a 80000 -n 'kernel 6.1' -d Image uImage
  uimg mkimage -A arm -T multi -d zImage:initrd.gz multi.img
  uimg mkimage -f kernel.its -E -p 1000 kernel.itb

Exit status:
  0  The image was made or listed
  1  The image, a part or the image source is refused
  2  The command line is wrong, or the image would replace a file that it is made of
  3  A file cannot be opened, a read or write failed, or memory ran out";

pub(super) const DUMPIMAGE_NOTES: &str = "Short names:
  <type>  standalone kernel ramdisk multi firmware script filesystem
          flat_dt kernel_noload

flat_dt reads the image as a FIT image, every other name as a legacy image,
whatever type its header has. Without -T the first four bytes decide.

Examples:
  uimg dumpimage -l uImage
  uimg dumpimage -p 1 -o initrd.gz multi.img
  uimg dumpimage -T flat_dt -p 0 -o Image kernel.itb

Exit status:
  0  The image was listed, or the part extracted
  1  The image or the part is refused
  2  The command line is wrong, or the outfile would replace the image
  3  A file cannot be opened, a read or write failed, or memory ran out";

pub(super) const VERIFY_NOTES: &str =
    "Prints a line for each checksum. A legacy image has one of the header and, if that
is right, one of the data; a FIT image has one for each hash node of each image.
A line ends with ok, bad, malformed or unsupported, or with unhashed for an image
without hash nodes.
The table of sizes of the types multi and script is not checked (dumpimage -l
reads it), and neither are signatures and the hashes of configurations.

Examples:
  uimg verify uImage
  uimg verify kernel.itb && cp kernel.itb /boot

Exit status:
  0  Each line ends with ok or unhashed, or there is no line
  1  A line ends with another word, or the image is refused
  2  The command line is wrong
  3  A file cannot be opened, a read or write failed, or memory ran out";

pub(super) const CHECK_NOTES: &str = "Algorithms, from the weakest to the strongest:
  <algo>  crc32 md5 sha1 sha256 sha384 sha512

A line has the path of the image and the first finding:
  ok           All hashes are right, or both checksums of a legacy image. With
               --strict the line of a FIT also counts the nodes of its
               configurations, if any: 2 nodes of configurations unchecked; with
               --key it ends with: all configurations signed by dev, or with
               --config: configuration conf-1 signed by dev
  unhashed     The same, but this image of the FIT has no hash
  bad          This hash of this image, or the data's checksum of a legacy image,
               is wrong
  malformed    This hash has no algorithm, no value, or one of the wrong length
  unsupported  This hash has an unknown algorithm
  weak         This image has no hash as strong as --need, or with --strict none;
               a legacy image has crc32
  empty        The FIT has no images (with --need or --strict)
  missing      With --strict: no image has this name, which this configuration
               gives by kernel, ramdisk, fdt, loadables, firmware, fpga, setup,
               standalone or script; or the default configuration does not
               exist
  no-description no-timestamp unit-address doubled-node doubled-property
  ignored-hash odd-cell half-place two-payloads misplaced unsound-blob
               With --strict: U-Boot refuses the FIT, or reads this node in
               another way
  empty-data unknown-type unknown-architecture unknown-system
  unknown-compression
               With --strict: the legacy image has no data, or image.h has no
               name for this code of its header
  unsigned unknown-signature weak-signature signed-strings signed-nodes
  signature-length signature-range bad-signature
               With --key: this configuration is not signed by the key; or the
               FIT has none (or not this one), or U-Boot verifies no signature
               of it, or the image is a legacy image
  overlapping  With this image, the payloads to hash are longer than the file
  refused      The image is refused, with this fault
  failed       The file cannot be opened, a read failed, or memory ran out
In paths and names, control characters and \\ are printed as \\xNN, in names also
spaces, colons and commas. --recursive takes the files below a folder that begin
as an image does, by the order of their names, follows no symbolic link, and ends
with a line that counts the others. --files-from - reads standard input; a file
without a path, or a folder without an image, is refused (--allow-empty). The image
- is read from standard input to a file without a name in TMPDIR or /tmp. --json
prints path, status and verdict (the word), and depending on it format, images,
hashes, unchecked, configurations, signed, signatures, checksums, algo, image,
hash, configuration, property, name, node, fault, message and offset.

--junit writes a report for CI as well: a test case an image, also with --quiet.
It is a failure with the word and the line, or an error if the word is failed.
FILE gets the report when all images are checked, and only if it does not exist,
is empty, or begins as a report does (<?xml).

--key implies --strict. Its file has an RSA key in PEM (openssl pkey -pubout), or
is U-Boot's control devicetree with the keys that it requires for configurations.
Each configuration must be signed by the key, or with --config this one only. The
line has the name before the =, or those of the keys in the devicetree; a path
with a = before its first / begins with ./, as ./a=b. Without --key no signature
is checked; hashes of configurations never are.

Examples:
  uimg check --strict --need sha256 kernel.itb rescue.itb
  uimg check --key dev=dev.pem kernel.itb
  uimg check --key dev=dev.pem --config conf-1 kernel.itb
  ssh board cat /boot/kernel.itb | uimg check --strict -
  find /srv/images -name '*.itb' -print0 | uimg check -0 --files-from -
  uimg check --junit report.xml kernel.itb rescue.itb

Exit status, the greatest of all lines:
  0  ok or unhashed
  1  Any other word except failed
  2  The command line is wrong
  3  failed, or a line cannot be written";

pub(super) const UNPACK_NOTES: &str = "Algorithms, from the weakest to the strongest:
  <algo>  crc32 md5 sha1 sha256 sha384 sha512

Each payload is read once, and hashed while it is written to a temporary folder,
.uimg-new1 in the folder. Files get their names only when all are on the disk
(--no-sync does not wait for that), and only if each hash of their images is
right and, with --need, one of them is strong enough. If one is refused,
nothing in the folder changes, and only refused ones have a line; --keep-good
keeps the others. The lines:
  kernel: 3 bytes, sha256 ba7816..  Kept; its strongest hash, which is right
  kernel: 3 bytes, unhashed         Kept; its image has no hash
  kernel: bad hash-1                Not kept; this hash is wrong (or malformed, or
                                    unsupported, as in check)
  kernel: weak                      Not kept; no hash is strong enough
  kernel: overlapping               None is kept; with this one, the payloads are
                                    longer than the file
A file has the name of its image if that has only letters, digits and . _ - + @,
does not begin with . or -, and differs from all earlier ones (a and A count as
the same). Otherwise it is image-N, with N counted from 0 (kernel: 3 bytes as
image-1, ..). If one of the files exists, nothing is written; with --force it is
replaced, or with --keep-good removed if its new payload is refused. In names,
control characters, \\, spaces, colons and commas are printed as \\xNN.
Signatures are checked with --key alone: if check --key refuses the image, or no
configuration names one of its images, nothing is written. Of an image with more
files or bytes than allowed nothing is written. --clean removes what stopped
commands left, .uimg-new1 to .uimg-new10000; no other command may be at work there.
The image - is read from standard input to a file without a name in the folder.
--json prints path, status and verdict (ok for a kept payload, or a word as above),
and depending on it format, image, file, size, algo, digest, data-crc, hash, fault,
message and offset; of what --key refuses, what check --json --key prints.

All parts of a legacy image, or its data if it has no parts, are kept if the
checksum of the data is right:
  image-0: 3 bytes, data crc32 352441c2  Kept; the checksum of the data is right
  kernel.img: weak crc32                 None is kept; --need is stronger

Examples:
  uimg unpack -C /srv/tftp --need sha256 kernel.itb
  uimg unpack --only ramdisk kernel.itb
  uimg unpack --config default kernel.itb
  uimg unpack --only image-1 uImage
  uimg unpack --clean -C /srv/tftp
  curl -s https://example.com/kernel.itb | uimg unpack -C new --need sha256 -

Exit status:
  0  All requested payloads or parts are kept
  1  A payload is refused, the image or part does not exist, or the image is refused
     or becomes too many files or bytes
  2  The command line is wrong, or a file would replace the image
  3  The image or the key cannot be opened, a file exists (without --force) or
     cannot be written, or memory ran out";

pub(super) const MAP_NOTES: &str =
    "A line for each item, by its offset and then by its end: offset and end in
hexadecimal, size, a bar of the file, and what it is.
  gap                    Unused bytes before another item
  rest                   Unused bytes up to the end of the file
    payload of kernel    In the structure block, as the value of data
  .., overlaps strings   Shares bytes with this earlier item
  .., outside the file   Ends after the end of the file
  fault B5 bad token ..  The fault that the image is refused with
A refused image has a map too, of what its header says. The reservation block
ends with its entry of zeros; without one it ends outside the file. Payloads and
data are not read: verify checks them. In names, control characters, \\, spaces,
colons and commas are printed as \\xNN. The image - is read from standard input to
a file without a name in TMPDIR or /tmp.

Examples:
  uimg map kernel.itb
  uimg map --svg kernel.svg kernel.itb

Exit status:
  0  The map was written
  1  It was written, but the image is refused, or a payload, a part or the data
     end outside the file
  2  The command line is wrong, or the picture would replace the image
  3  A file cannot be opened or written, the picture exists (without --force), a
     read failed, or memory ran out";

pub(super) const INFO_NOTES: &str =
    "Prints one line, a JSON object. For a FIT image it has path, status, format, size,
totalsize, description, timestamp, default, reservations, images and
configurations. An image has name, description, type, arch, os, compression, load,
entry, offset and data-size of its payload, and hashes. A configuration has the
names that its properties give, nodes and properties. Of a legacy image the object
has path, status, format, size, name, time, load, entry, header-crc, data-crc, os,
arch, type and compression (each with its code), data-size and parts. What the image
lacks is left out. An image that is refused or cannot be read has the line of check
--json.
Hashes and the checksum of a legacy image's data are printed, not checked. The
image - is read from standard input to a file without a name in TMPDIR or /tmp.

Examples:
  uimg info kernel.itb
  uimg info kernel.itb | jq -r '.images[] | select(.type == \"kernel\") | .load'

Exit status:
  0  The facts were printed
  1  The image is refused
  2  The command line is wrong
  3  A file cannot be opened, a read or write failed, or memory ran out";

pub(super) const DIFF_NOTES: &str =
    "Prints a line for each difference of what the images state: their nodes, their
properties, and their payloads wherever these are. A line gives a path and both
values, or begins with - or + if only the first or the second image states it.
Values of more than 128 bytes are given by their size and SHA-256. Of legacy images
the fields of the header and the parts are compared. The order of nodes and of
properties does not count.

Examples:
  uimg diff yesterday.itb today.itb

Exit status:
  0  The images mean the same
  1  They differ, or one of them is refused: then a line on standard error says so
  2  The command line is wrong
  3  A file cannot be opened, a read failed, or memory ran out";
