//! The requests of mkimage's command line.

ghost use Rattle.std.specs.Prelude.{◌≡◌, true, map, option_map, Ok};
ghost use Rattle.uimg_compat.specs.Asked.{asked_of, auto_of, making_of};
ghost use Rattle.uimg_compat.specs.Mkimage.{setting_of};
ghost use Rattle.uimg_compat.specs.Requests.{align_asked, auto_asked, auto_source_asked};
ghost use Rattle.uimg_compat.specs.Requests.{data_asked, default_entry, listing_asked, making_by};
ghost use Rattle.uimg_compat.specs.Requests.{manner_asked, options_of, placed, request_asked};
ghost use Rattle.uimg_compat.specs.Requests.{signature_by, source_asked, sourced_asked, time_asked};
ghost use Rattle.uimg_compat.specs.Requests.{timed_asked, whole_asked, unsigned, update_asked};
ghost use Rattle.uimg_compat.specs.Wrong.{Tells};

use crate::auto_source::AutoSource;
use crate::c_numbers::long_prefix;
use crate::dtc_words::read_dtc_words;
use crate::fault::OldFault;
use crate::mkimage::Settings;
use crate::names::{format_of, is_made};
use crate::request::{AutoRequest, FitRequest, OldRequest, UpdateRequest};
use std::alloc::Global;
use uimg_base::FLAT_DT;
use uimg_fit_base::{Placement, WORD_ALIGNMENT};
use uimg_legacy::{Options, has_parts, name_field};
use uimg_printing::Printed;
use uimg_requests::{Action, Command, MakeRequest, Manner, RunRequest};
use uimg_texts::Naming;

/// The argument of -f for a source that mkimage makes itself.
const AUTO: &str = "auto";

/// The length of a header, in bytes.
const HEADER_BYTES: u32 = 64;

/// The path of an empty file, for an image without data.
const NO_DATA: &str = "/dev/null";

impl<'a> Settings<'a> {
    pub(super) fn request(
        self,
        alloc: Global,
        words: &'a [&'a str],
        epoch: Option<&str>,
        now: u32,
    ) -> Result<OldRequest<'a>, OldFault<'a>>
        ensures { Tells asked_of (request_asked (map (λ word. word.now) words.entry.now)
            (option_map (λ text. text.now) epoch.entry) now (setting_of self.entry)) result }
    {
        let Some(image) = self.image else {
            return Err(OldFault::NoImage);
        };
        if self.is_list {
            return self.listing(image);
        }
        match time(epoch, now) {
            Ok(time) => self.timed(alloc, words, image, time),
            Err(fault) => Err(fault),
        }
    }

    fn timed(
        self,
        alloc: Global,
        words: &'a [&'a str],
        image: &'a str,
        time: u32,
    ) -> Result<OldRequest<'a>, OldFault<'a>>
        ensures { Tells asked_of (timed_asked (setting_of self.entry)
            (map (λ word. word.now) words.entry.now) image.entry.now time) result }
    {
        match self.source {
            Some(source) => self.sourced(alloc, words, source, time, image),
            None if self.is_update => self.update(image, time),
            None => self.making_of_data(alloc, time, image),
        }
    }

    fn sourced(
        self,
        alloc: Global,
        words: &'a [&'a str],
        source: &'a str,
        time: u32,
        image: &'a str,
    ) -> Result<OldRequest<'a>, OldFault<'a>>
        ensures { Tells asked_of (sourced_asked (setting_of self.entry)
            (map (λ word. word.now) words.entry.now) source.entry.now time image.entry.now) result }
    {
        if source == AUTO {
            return self.making_of_auto(words, time, image);
        }
        if self.data.is_some() {
            return Err(OldFault::DataWithSource);
        }
        self.making_of_source(alloc, source, time, image)
    }

    fn update(self, image: &'a str, time: u32) -> Result<OldRequest<'a>, OldFault<'a>>
        ensures { Tells asked_of (update_asked (setting_of self.entry) image.entry.now time) result }
    {
        self.check_signing()?;
        if self.data.is_some() {
            return Err(OldFault::DataWithUpdate);
        }
        Ok(OldRequest::Update(UpdateRequest {
            image,
            placement: self.placement(),
            manner: self.manner(time)?,
            sets_time: self.sets_time,
            is_quiet: self.is_quiet,
        }))
    }

    fn listing(self, image: &'a str) -> Result<OldRequest<'a>, OldFault<'a>>
        ensures { Tells asked_of (listing_asked (setting_of self.entry) image.entry.now) result }
    {
        if self.is_update {
            return Err(OldFault::ListWithUpdate);
        }
        if self.source.is_some() {
            return Err(OldFault::ListWithSource);
        }
        let command = Command {
            action: Action::List,
            form: format_of(self.kind, self.kind_name)?,
        };
        Ok(OldRequest::Run {
            request: RunRequest {
                command,
                naming: Naming::All,
                image,
                outfile: None,
            },
            is_quiet: self.is_quiet,
        })
    }

    fn making_of_auto(
        self,
        words: &'a [&'a str],
        time: u32,
        image: &'a str,
    ) -> Result<OldRequest<'a>, OldFault<'a>>
        ensures { Tells asked_of (auto_asked (setting_of self.entry)
            (map (λ word. word.now) words.entry.now) time image.entry.now) result }
    {
        self.check_signing()?;
        Ok(OldRequest::MakeAuto(AutoRequest {
            source: self.auto_source(words)?,
            placement: self.placement(),
            manner: self.manner(time)?,
            outfile: image,
            key: self.key_name,
            is_quiet: self.is_quiet,
        }))
    }

    fn making_of_source(
        self,
        alloc: Global,
        source: &'a str,
        time: u32,
        image: &'a str,
    ) -> Result<OldRequest<'a>, OldFault<'a>>
        ensures { Tells asked_of
            (source_asked (setting_of self.entry) source.entry.now time image.entry.now) result }
    {
        self.check_signing()?;
        Ok(OldRequest::MakeFit(FitRequest {
            source,
            placement: self.placement(),
            manner: self.manner(time)?,
            outfile: image,
            dtc: read_dtc_words(alloc, self.dtc_words)?,
            key: self.key_name,
            is_quiet: self.is_quiet,
        }))
    }

    // Only legacy images ignore the options of keys.
    fn check_signing(&self) -> Result<(), OldFault<'a>>
        ensures { Tells (λ _. true) (unsigned (setting_of self.now).signing (Ok true)) result }
    {
        match self.signing {
            Some(option) => Err(OldFault::Signs(option)),
            None => Ok(()),
        }
    }

    fn making_of_data(
        self,
        alloc: Global,
        time: u32,
        image: &'a str,
    ) -> Result<OldRequest<'a>, OldFault<'a>>
        ensures { Tells asked_of
            (data_asked (setting_of self.entry) time image.entry.now (setting_of self.entry).file)
            result }
    {
        let Some(data) = self.data else {
            return Err(OldFault::NothingToMake);
        };
        let kind = self.kind.unwrap_or(0);
        if kind == FLAT_DT {
            return Err(OldFault::NoSource);
        }
        if !is_made(kind) {
            return Err(OldFault::OtherImages(Printed(self.kind_name.as_bytes())));
        }
        self.making_of_parts(alloc, data, time, image)
    }

    fn making_of_parts(
        self,
        alloc: Global,
        data: &'a str,
        time: u32,
        image: &'a str,
    ) -> Result<OldRequest<'a>, OldFault<'a>>
        ensures { Tells asked_of
            (whole_asked (setting_of self.entry) data.entry.now time image.entry.now) result }
    {
        let options = self.options();
        if self.is_xip && has_parts(options.kind) {
            return Err(OldFault::XipOfParts);
        }
        let data = if self.has_no_data { NO_DATA } else { data };
        let is_xip = self.is_xip && !self.has_no_data;
        Ok(OldRequest::Make {
            request: made_of_parts(alloc, options, data, time, is_xip, image)?,
            is_quiet: self.is_quiet,
        })
    }

    fn auto_source(&self, words: &'a [&'a str]) -> Result<AutoSource<'a>, OldFault<'a>>
        ensures { Tells auto_of (auto_source_asked (setting_of self.now)
            (map (λ word. word.now) words.entry.now) (setting_of self.now).file) result }
    {
        let Some(data) = self.data else {
            return Err(OldFault::NoData);
        };
        Ok(AutoSource {
            options: self.options(),
            name: self.name,
            data,
            ramdisk: self.ramdisk,
            signature: self.signature()?,
            words,
        })
    }

    // Returns the key's name and the algorithm of the signatures of -f auto.
    fn signature(&self) -> Result<Option<(&'a str, &'a str)>, OldFault<'a>>
        ensures { Tells (option_map (λ both. (both.0.now, both.1.now)))
            (signature_by (setting_of self.now).key_name (setting_of self.now).algorithm) result }
    {
        match (self.key_name, self.algorithm) {
            (None, _) => Ok(None),
            (Some(key), Some(algorithm)) => Ok(Some((key, algorithm))),
            (Some(_), None) => Err(OldFault::NoAlgorithm),
        }
    }

    fn placement(&self) -> Placement
        ensures { result ≡ placed self.now.is_external self.now.position }
    {
        match (self.is_external, self.position) {
            (false, _) => Placement::Inside,
            (true, 0) => Placement::After,
            (true, position) => Placement::At(position),
        }
    }

    fn manner(&self, time: u32) -> Result<Manner, OldFault<'a>>
        ensures { Tells (λ manner. manner) (manner_asked (setting_of self.now) time) result }
    {
        Ok(Manner {
            time,
            naming: Naming::All,
            align: self.align()?,
        })
    }

    // Readers of the image find payloads after the tree at this alignment. It is ignored if they
    // are in the tree.
    fn align(&self) -> Result<u32, OldFault<'a>>
        ensures { Tells (λ align. align) (align_asked (setting_of self.now)) result }
    {
        if !self.is_external {
            return Ok(WORD_ALIGNMENT);
        }
        match self.alignment {
            0 => Ok(WORD_ALIGNMENT),
            align if align % WORD_ALIGNMENT == 0 => Ok(align),
            _ => Err(OldFault::UnevenAlignment(Printed(self.alignment_word.as_bytes()))),
        }
    }

    // An image that runs in place is entered after its header.
    fn default_entry(&self) -> u32
        ensures { result ≡ default_entry (setting_of self.now) }
    {
        if self.is_xip {
            self.load.wrapping_add(HEADER_BYTES)
        } else {
            self.load
        }
    }

    // The type `invalid` counts as none.
    fn options(&self) -> Options
        ensures { result ≡ options_of (setting_of self.now) }
    {
        let kind = match self.kind {
            None => 2,
            Some(0) => 2,
            Some(kind) => kind,
        };
        Options {
            time: 0,
            load: self.load,
            ep: self.entry.unwrap_or(self.default_entry()),
            os: self.os,
            arch: self.arch,
            kind,
            comp: self.comp,
            name: name_field(self.name.as_bytes()),
        }
    }
}

#[tactic(auto, using(crate::proofs::MakingLaws::parts_made))]
fn made_of_parts<'a>(
    alloc: Global,
    options: Options,
    data: &str,
    time: u32,
    is_xip: bool,
    image: &'a str,
) -> Result<MakeRequest<'a>, OldFault<'a>>
    ensures { Tells making_of (Ok (making_by options data.now time is_xip image.entry.now)) result }
{
    let Ok(mut request) = MakeRequest::of_parts(alloc, options, data, time, image) else {
        return Err(OldFault::OutOfMemory);
    };
    request.manner = Manner {
        naming: Naming::All,
        ..request.manner
    };
    request.is_xip = is_xip;
    Ok(request)
}

// SOURCE_DATE_EPOCH, if it is set, overrides the current time.
fn time<'a>(epoch: Option<&str>, now: u32) -> Result<u32, OldFault<'a>>
    ensures { Tells (λ time. time) (time_asked (option_map (λ text. text.now) epoch.entry) now)
        result }
{
    match epoch {
        None => Ok(now),
        Some(text) => match long_prefix(text) {
            Some(time) => Ok(time),
            None => Err(OldFault::BadEpoch),
        },
    }
}
