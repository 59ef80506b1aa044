//! The help of the commands with the old names.

pub(crate) const MKIMAGE_HELP: &str =
    "Make a U-Boot image, or list one (uimg under the name of mkimage)

Usage: mkimage -l [-T type] image
       mkimage -d file[:file...] [-A arch] [-O os] [-T type] [-C comp]
               [-a address] [-e address] [-n name] image
       mkimage -f source.its [-E] [-p position] [-B bytes] [-D words] image
       mkimage -f auto -d file [-b tree].. [-i ramdisk] [as above] image
       mkimage -F [-t] [-E] [-p position] [-B bytes] image

  -l  --list            list the image instead of making one
  -d  --image           the file with the data; several for multi and script
  -A  --architecture    the architecture [ppc]; -A list prints the names
  -O  --os              the operating system [linux]; -O list
  -T  --type            the image type [kernel]; -T list
  -C  --compression     the compression of the data [gzip]; -C list
  -a  --load-address    the load address, hexadecimal [0]
  -e  --entry-point     the entry point, hexadecimal [the load address]
  -n  --config          the image's name
  -s  --no-copy         make the image without data
  -x  --xip             put the header in place of the 64 bytes 0xff that the data
                        begin with, and the entry point after it
  -f  --fit             the image-tree source of a FIT image, - for standard input;
                        auto makes one of the files of -d, -b and -i, with the
                        options -A to -n
  -b  --device-tree     with -f auto: a device tree; may be repeated
  -i  --initramfs       with -f auto: the RAM disk
  -F  --update          set the hashes of the FIT image that is there
  -t  --touch           with -F: set its timestamp too
  -E  --external        with -f and -F: place the data after the blob
  -p  --position        with -E: place the data at this offset, hexadecimal
  -B  --alignment       with -E: pad the blob and each payload to a multiple of this
                        many bytes, hexadecimal, a multiple of 4 itself [4]
  -D  --dtcopts         with -f: options of dtc, as -i and a folder to look for files
                        that are not in the folder of the source
  -q  --quiet           print no listing
  -h  --help            print this help
  -V  --version         print the version

With -f auto, -g name and -o algorithm give each image a signature node in place of
its checksum, without a value. Nothing is signed: -G -k -K -N are refused for FIT
images, and with -f so is -g if a file has that name. Without effect: -v, -r,
-c comment and -R name.
The image is written to a temporary file, which is renamed when it is complete.
See uimg-mkimage(1).
";

pub(crate) const DUMPIMAGE_HELP: &str =
    "List a U-Boot image, or extract a part of it (uimg under the name of dumpimage)

Usage: dumpimage -l [-T type] image
       dumpimage [-T type] [-p position] -o outfile image

  -l  list the image
  -o  write the part or payload to this file
  -p  extract the part or payload at this position, counted from 0 [0]
  -T  read the image as a FIT image (flat_dt) or as a legacy image (its types);
      without it the first four bytes decide
  -h  print this help
  -V  print the version

See uimg-dumpimage(1).
";
