//! The facts of a FIT image, as spans in its file.

use uimg_base::Span;
use uimg_blob_reading::PropertyPlace;
use uimg_fit_reading::PayloadFacts;

/// The facts of a hash node.
#[derive(Clone, Copy, Debug, PartialEq, Eq)]
pub struct HashFacts {
    /// Its name.
    pub name: Span,
    /// `algo`: a text.
    pub algo: Option<Span>,
    /// `value`: a digest.
    pub value: Option<Span>,
}

/// The facts of an image.
#[derive(Drop)]
pub struct ImageFacts {
    /// Its name.
    pub name: Span,
    /// `description`: a text.
    pub description: Option<Span>,
    /// `type`: a text.
    pub kind: Option<Span>,
    /// `arch`: a text.
    pub arch: Option<Span>,
    /// `os`: a text.
    pub os: Option<Span>,
    /// `compression`: a text.
    pub compression: Option<Span>,
    /// `load`: an address of one or two cells.
    pub load: Option<Span>,
    /// `entry`: an address of one or two cells.
    pub entry: Option<Span>,
    /// The properties that say where its payload is.
    pub payload: PayloadFacts,
    /// Its hash nodes, in their order.
    pub hashes: Vec<HashFacts>,
}

/// The facts of a configuration.
#[derive(Drop)]
pub struct ConfigurationFacts {
    /// Its name.
    pub name: Span,
    /// `description`: a text.
    pub description: Option<Span>,
    /// `kernel`: an image's name.
    pub kernel: Option<Span>,
    /// `ramdisk`: an image's name.
    pub ramdisk: Option<Span>,
    /// `fdt`: names of images.
    pub fdt: Option<Span>,
    /// `loadables`: names of images.
    pub loadables: Option<Span>,
    /// `firmware`: an image's name.
    pub firmware: Option<Span>,
    /// `fpga`: an image's name.
    pub fpga: Option<Span>,
    /// `setup`: an image's name.
    pub setup: Option<Span>,
    /// `standalone`: an image's name.
    pub standalone: Option<Span>,
    /// `script`: an image's name.
    pub script: Option<Span>,
    /// The names of its child nodes, hashes and signatures, in their order.
    pub nodes: Vec<Span>,
}

/// The facts of a FIT image. Of properties with the same name in a node the first counts.
#[derive(Drop)]
pub struct Survey {
    /// The length of its blob in bytes, by the blob's header.
    pub totalsize: u32,
    /// The root's `description`: a text.
    pub description: Option<Span>,
    /// The root's `timestamp`: seconds since 1970, a cell.
    pub timestamp: Option<Span>,
    /// The images, in their order.
    pub images: Vec<ImageFacts>,
    /// `default`: the name of the configuration that is used unless another one is requested.
    pub preferred: Option<Span>,
    /// The configurations, in their order.
    pub configurations: Vec<ConfigurationFacts>,
}

/// The facts of a FIT image, and the properties of its configurations.
#[derive(Drop)]
pub struct FullSurvey {
    /// The facts.
    pub survey: Survey,
    /// For each configuration, in their order, its properties, in their order.
    pub properties: Vec<Vec<PropertyPlace>>,
}
