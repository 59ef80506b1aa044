//! The image source that mkimage makes itself for -f auto.

ghost use Rattle.std.specs.Prelude.{◌≡◌, ◌<◌, ◌∷◌, [], map, IfSome, MatchOption};
ghost use Rattle.std.specs.Prelude.{Some, option_map};
ghost use Rattle.std.specs.Fmt.{WritesOnOk};
ghost use Rattle.uimg_texts.specs.Names.{row_of};
ghost use Rattle.uimg_texts.specs.declared.field.Field.TheVariants.{Architecture, System, Compression};
ghost use Rattle.uimg_compat.specs.Asked.{auto_of};
ghost use Rattle.uimg_compat.specs.AutoSource.{auto_text, bare_configuration_text, bare_head};
ghost use Rattle.uimg_compat.specs.AutoSource.{configuration_end, configuration_head, configuration_text};
ghost use Rattle.uimg_compat.specs.AutoSource.{configurations_by, configurations_head};
ghost use Rattle.uimg_compat.specs.AutoSource.{configurations_text, each_from, ending, file_head};
ghost use Rattle.uimg_compat.specs.AutoSource.{image_text, images_text, kind_name, paths_left};
ghost use Rattle.uimg_compat.specs.AutoSource.{ramdisk_head, ramdisk_name, ramdisk_text, root_head};
ghost use Rattle.uimg_compat.specs.AutoSource.{root_text, short_in, short_name, signature_items};
ghost use Rattle.uimg_compat.specs.AutoSource.{tree_head, tree_of, tree_text, trees_of, trees_text};
ghost use Rattle.uimg_compat.specs.Getopt.{left, told_of};
ghost use Rattle.uimg_compat.specs.ImageTree.{item_of, source_text};

use crate::base_names::base_name;
use crate::getopt::{Given, Words};
use crate::image_tree::{Item, put_items};
use crate::mkimage_options::take_option;
use std::fmt;
use std::fmt::{Display, Formatter, Write};
use uimg_legacy::Options;
use uimg_texts::{CodeRow, Field, Naming};

/// The image source that mkimage 2023.01 makes for a file, device trees and a RAM disk. Displayed,
/// it is the text of the source.
#[derive(Clone, Copy)]
pub struct AutoSource<'a> {
    /// The type of the file's image, and its load address.
    pub(crate) options: Options,

    /// The image's description.
    pub(crate) name: &'a str,

    /// The path of the file.
    pub data: &'a str,

    /// The path of the RAM disk.
    pub ramdisk: Option<&'a str>,

    /// The key's name and the algorithm of the signatures that images have in place of checksums.
    pub(crate) signature: Option<(&'a str, &'a str)>,

    /// The arguments after mkimage's name. Those of -b are the paths of the device trees.
    pub(crate) words: &'a [&'a str],
}

/// The paths of device trees, one after another.
#[derive(Clone, Copy)]
pub struct TreePaths<'a> {
    words: Words<'a, 'a>,
}

impl<'a> AutoSource<'a> {
    /// Returns the paths of the device trees.
    pub fn trees(&self) -> TreePaths<'a>
        ensures { paths_left result ≡ trees_of (map (λ word. word.now) self.now.words.now) }
    {
        TreePaths {
            words: Words::new(self.words),
        }
    }

    fn kind(&self) -> &'static str
        ensures { result.now ≡ kind_name (auto_of self.now) }
    {
        short_name(Field::Kind, self.options.kind)
    }

    fn arch(&self) -> &'static str
        ensures { result.now ≡ short_name Architecture (auto_of self.now).options.arch }
    {
        short_name(Field::Architecture, self.options.arch)
    }

    // Returns the short name of the system of the file and the RAM disk.
    fn os(&self) -> &'static str
        ensures { result.now ≡ short_name System (auto_of self.now).options.os }
    {
        short_name(Field::System, self.options.os)
    }

    fn comp(&self) -> &'static str
        ensures { result.now ≡ short_name Compression (auto_of self.now).options.comp }
    {
        short_name(Field::Compression, self.options.comp)
    }

    fn root_head(&self) -> [Item<'_>; 5]
        ensures { map item_of result ≡ root_head (auto_of self.now) }
    {
        [
            Item::Begins("/"),
            Item::Title(
                "description",
                Naming::All.code_text(Field::Kind, self.options.kind),
            ),
            Item::Name("creator", "U-Boot mkimage 2023.01"),
            Item::Cell("#address-cells", 1),
            Item::Begins("images"),
        ]
    }

    fn file_head(&self) -> [Item<'_>; 9]
        ensures { map item_of result ≡ file_head (auto_of self.now) }
    {
        let kind = self.kind();
        [
            Item::BeginsNumbered(kind, 1),
            Item::Text("description", self.name.as_bytes()),
            Item::Name("type", kind),
            Item::Name("arch", self.arch()),
            Item::Name("os", self.os()),
            Item::Name("compression", self.comp()),
            Item::Cell("load", self.options.load),
            Item::Cell("entry", self.options.ep),
            Item::File("data", self.data),
        ]
    }

    fn tree_head<'b>(&self, number: u32, path: &'b str) -> [Item<'b>; 6]
        ensures { map item_of result ≡ tree_head (auto_of self.now) number path.now }
    {
        [
            Item::BeginsNumbered("fdt", number),
            Item::Text("description", base_name(path.as_bytes())),
            Item::File("data", path),
            Item::Name("type", "flat_dt"),
            Item::Name("arch", self.arch()),
            Item::Name("compression", "none"),
        ]
    }

    fn ramdisk_head<'b>(&self, path: &'b str) -> [Item<'b>; 5]
        ensures { map item_of result ≡ ramdisk_head (auto_of self.now) path.now }
    {
        [
            Item::Begins("ramdisk-1"),
            Item::Name("type", "ramdisk"),
            Item::Name("os", self.os()),
            Item::Name("arch", self.arch()),
            Item::File("data", path),
        ]
    }

    fn configuration_head<'b>(&self, number: u32, path: &'b str) -> [Item<'b>; 4]
        ensures { map item_of result ≡ configuration_head (auto_of self.now) number path.now }
    {
        let kind = self.kind();
        [
            Item::BeginsNumbered("conf", number),
            Item::Text("description", base_name(path.as_bytes())),
            Item::Numbered(kind, kind, 1),
            Item::Numbered("loadables", kind, 1),
        ]
    }

    fn bare_head(&self) -> [Item<'_>; 2]
        ensures { map item_of result ≡ bare_head (auto_of self.now) }
    {
        let kind = self.kind();
        [Item::Begins("conf-1"), Item::Numbered(kind, kind, 1)]
    }

    fn put_root<W: Write>(&self, f: &mut Formatter<W>) -> fmt::Result
        ensures { WritesOnOk W.Write.write_str_gives f.old result (root_text (auto_of self.now))
            f.new }
    {
        put_items(&self.root_head(), f)?;
        self.put_images(f)?;
        put_items(&[Item::Ends], f)
    }

    fn put_images<W: Write>(&self, f: &mut Formatter<W>) -> fmt::Result
        ensures { WritesOnOk W.Write.write_str_gives f.old result (images_text (auto_of self.now))
            f.new }
    {
        self.put_image(&self.file_head(), f)?;
        self.put_trees(f)?;
        self.put_ramdisk(f)
    }

    // Writes an image: its properties, then its checksum or the signature that a key is to make.
    fn put_image<W: Write>(&self, head: &[Item<'_>], f: &mut Formatter<W>) -> fmt::Result
        ensures { WritesOnOk W.Write.write_str_gives f.old result
            (image_text (auto_of self.now) (map item_of head.now)) f.new }
    {
        put_items(head, f)?;
        self.put_ending(f)
    }

    fn put_trees<W: Write>(&self, f: &mut Formatter<W>) -> fmt::Result
        ensures { WritesOnOk W.Write.write_str_gives f.old result (trees_text (auto_of self.now))
            f.new }
    {
        let mut trees = self.trees();
        let mut number = 1u32;
        while let Some(path) = trees.take() {
            self.put_tree(number, path, f)?;
            number = number.saturating_add(1);
        }
        Ok(())
    }

    fn put_tree<W: Write>(&self, number: u32, path: &str, f: &mut Formatter<W>) -> fmt::Result
        ensures { WritesOnOk W.Write.write_str_gives f.old result
            (tree_text (auto_of self.now) number path.now) f.new }
    {
        self.put_image(&self.tree_head(number, path), f)
    }

    fn put_ramdisk<W: Write>(&self, f: &mut Formatter<W>) -> fmt::Result
        ensures { WritesOnOk W.Write.write_str_gives f.old result
            (ramdisk_text (auto_of self.now) (auto_of self.now).ramdisk) f.new }
    {
        match self.ramdisk {
            Some(path) => self.put_image(&self.ramdisk_head(path), f),
            None => Ok(()),
        }
    }

    fn put_ending<W: Write>(&self, f: &mut Formatter<W>) -> fmt::Result
        ensures { WritesOnOk W.Write.write_str_gives f.old result
            (source_text (ending (auto_of self.now).signature)) f.new }
    {
        match self.signature {
            Some((key, algorithm)) => put_items(&signature_items(key, algorithm), f),
            None => put_items(
                &[
                    Item::Begins("hash-1"),
                    Item::Name("algo", "crc32"),
                    Item::Ends,
                    Item::Ends,
                ],
                f,
            ),
        }
    }

    fn put_configurations<W: Write>(&self, f: &mut Formatter<W>) -> fmt::Result
        ensures { WritesOnOk W.Write.write_str_gives f.old result
            (configurations_text (auto_of self.now)) f.new }
    {
        put_items(&configurations_head(), f)?;
        self.put_each_configuration(f)?;
        put_items(&[Item::Ends], f)
    }

    // Writes a configuration for each device tree, or one without.
    fn put_each_configuration<W: Write>(&self, f: &mut Formatter<W>) -> fmt::Result
        ensures { WritesOnOk W.Write.write_str_gives f.old result
            (configurations_by (auto_of self.now) (trees_of (auto_of self.now).words)) f.new }
    {
        let mut trees = self.trees();
        match trees.take() {
            Some(_) => self.put_tree_configurations(f),
            None => self.put_bare_configuration(f),
        }
    }

    fn put_tree_configurations<W: Write>(&self, f: &mut Formatter<W>) -> fmt::Result
        ensures { WritesOnOk W.Write.write_str_gives f.old result (each_from
            (configuration_text (auto_of self.now)) 1 (trees_of (auto_of self.now).words)) f.new }
    {
        let mut trees = self.trees();
        let mut number = 1u32;
        while let Some(path) = trees.take() {
            self.put_configuration(number, path, f)?;
            number = number.saturating_add(1);
        }
        Ok(())
    }

    fn put_configuration<W: Write>(
        &self,
        number: u32,
        path: &str,
        f: &mut Formatter<W>,
    ) -> fmt::Result
        ensures { WritesOnOk W.Write.write_str_gives f.old result
            (configuration_text (auto_of self.now) number path.now) f.new }
    {
        put_items(&self.configuration_head(number, path), f)?;
        self.put_ramdisk_name(f)?;
        put_items(&configuration_end(number), f)
    }

    fn put_bare_configuration<W: Write>(&self, f: &mut Formatter<W>) -> fmt::Result
        ensures { WritesOnOk W.Write.write_str_gives f.old result
            (bare_configuration_text (auto_of self.now)) f.new }
    {
        put_items(&self.bare_head(), f)?;
        self.put_ramdisk_name(f)?;
        put_items(&[Item::Ends], f)
    }

    fn put_ramdisk_name<W: Write>(&self, f: &mut Formatter<W>) -> fmt::Result
        ensures { WritesOnOk W.Write.write_str_gives f.old result
            (source_text (ramdisk_name (auto_of self.now).ramdisk)) f.new }
    {
        match self.ramdisk {
            Some(_) => put_items(&[Item::Name("ramdisk", "ramdisk-1")], f),
            None => put_items(&[], f),
        }
    }
}

impl<'a> Display for AutoSource<'a> {
    ghost output = { λ it. Some (auto_text (auto_of it)) };

    #[tactic(auto, unfolding(crate::specs::AutoSource::auto_text))]
    fn fmt<W: Write>(&self, f: &mut Formatter<W>) -> fmt::Result {
        f.write_str("/dts-v1/;\n")?;
        self.put_root(f)?;
        self.put_configurations(f)?;
        put_items(&[Item::Ends], f)
    }
}

impl<'a> TreePaths<'a> {
    /// Takes the next path.
    pub fn take(&mut self) -> Option<&'a str>
        ensures less { IfSome result (λ _. left self.new.words < left self.old.words) }
        ensures next { MatchOption result (paths_left self.old ≡ [])
            (λ path. paths_left self.old ≡ path.now ∷ paths_left self.new) }
    {
        while let Ok(Some(given)) = take_option(&mut self.words) {
            if let Some(path) = tree_of(given) {
                return Some(path);
            }
        }
        None
    }
}

fn signature_items<'a>(key: &'a str, algorithm: &'a str) -> [Item<'a>; 5]
    ensures { map item_of result ≡ signature_items key.now algorithm.now }
{
    [
        Item::Begins("signature-1"),
        Item::Text("algo", algorithm.as_bytes()),
        Item::Text("key-name-hint", key.as_bytes()),
        Item::Ends,
        Item::Ends,
    ]
}

fn configurations_head() -> [Item<'static>; 2]
    ensures { map item_of result ≡ configurations_head }
{
    [
        Item::Begins("configurations"),
        Item::Name("default", "conf-1"),
    ]
}

fn configuration_end(number: u32) -> [Item<'static>; 2]
    ensures { map item_of result ≡ configuration_end number }
{
    [Item::Numbered("fdt", "fdt", number), Item::Ends]
}

fn tree_of<'a>(given: Given<'a>) -> Option<&'a str>
    ensures { option_map (λ path. path.now) result ≡ tree_of (told_of given.entry) }
{
    match given {
        Given::Value('b', path) => Some(path),
        _ => None,
    }
}

// Returns the first short name of a code.
fn short_name(field: Field, code: u8) -> &'static str
    ensures { result.now ≡ short_name field code }
{
    first_short(field.rows(), code)
}

fn first_short(rows: &'static [CodeRow], code: u8) -> &'static str
    ensures { result.now ≡ short_in (map row_of rows.now) code }
{
    for (short, known, _, _) in rows {
        if code == *known {
            return short;
        }
    }
    "unknown"
}
