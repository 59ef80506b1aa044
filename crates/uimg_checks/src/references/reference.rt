//! The properties whose values are names.

ghost use Rattle.std.specs.Prelude.{◌≡◌, codes};
ghost use Rattle.uimg_checks.specs.Properties.{property_name};

/// A property whose value is the name of a configuration or of images.
#[derive(Clone, Copy, Debug, PartialEq, Eq)]
pub enum Reference {
    /// The name of the configuration that is requested; it is no property.
    Requested,
    /// `default`: a configuration's name.
    Default,
    /// `kernel`: an image's name.
    Kernel,
    /// `ramdisk`: an image's name.
    Ramdisk,
    /// `fdt`: names of images.
    Fdt,
    /// `loadables`: names of images.
    Loadables,
    /// `firmware`: an image's name.
    Firmware,
    /// `fpga`: an image's name.
    Fpga,
    /// `setup`: an image's name.
    Setup,
    /// `standalone`: an image's name.
    Standalone,
    /// `script`: an image's name.
    Script,
}

impl Reference {
    /// Returns the name of the property.
    pub fn name(self) -> &'static str
        ensures { result.now ≡ property_name self }
    {
        match self {
            Reference::Requested => "configuration",
            Reference::Default => "default",
            Reference::Kernel => "kernel",
            Reference::Ramdisk => "ramdisk",
            Reference::Fdt => "fdt",
            Reference::Loadables => "loadables",
            Reference::Firmware => "firmware",
            Reference::Fpga => "fpga",
            Reference::Setup => "setup",
            Reference::Standalone => "standalone",
            Reference::Script => "script",
        }
    }
}
