//! Where the payloads of images are, and the first one that is not in the file.

ghost use Rattle.std.specs.Prelude.{◌≡◌, ◌+◌, ◌*◌, ◌^◌, ◌<◌, ◌≤◌, length, map, IfOk};
ghost use Rattle.std.specs.List.{All};
ghost use Rattle.uimg_base.specs.{Honest.IfHonest, Using.Asks};
ghost use Rattle.uimg_fit_checking.specs.Survey.{read_image};
ghost use Rattle.uimg_fit_checking.specs.SurveyParts.{ImageInside, is_unread, IsOwn};
ghost use Rattle.uimg_fit_reading.specs.PayloadPlaces.{read_payload, place_said, PayloadInside};
ghost use Rattle.uimg_info.specs.Placing.{fault_of, first_fault};

use uimg_base::{Source, Span};
use uimg_fit_base::{Fault, FitFault};
use uimg_fit_checking::{ImageFacts, SurveyFault};
use uimg_fit_reading::{PayloadFacts, find_payload};

pub(crate) fn find_place<S: Source>(
    source: &mut S,
    totalsize: u32,
    facts: &PayloadFacts,
) -> Result<Result<Span, FitFault>, SurveyFault>
    requires values { PayloadInside totalsize facts.now }
    requires blob { totalsize ≤ length (S.device source.old).bytes }
    ensures uses { Asks 12 (is_unread result) (S.device source.old) (S.device source.new) }
    ensures own { IsOwn result }
    ensures small { IfOk result (λ found. IfOk found (λ p. p.place + p.length < 2 ^ 64)) }
    ensures place { IfHonest S.device source (λ file.
        IfOk result (λ found. found ≡ place_said totalsize (read_payload file facts.now))) }
{
    match find_payload(source, totalsize, facts) {
        Ok(found) => Ok(found),
        Err(_) => Err(SurveyFault::Stopped(Fault::Read)),
    }
}

fn fault_of(size: u64, found: Result<Span, FitFault>) -> Option<FitFault>
    requires { IfOk found (λ p. p.place + p.length < 2 ^ 64) }
    ensures { result ≡ fault_of size found }
{
    match found {
        Ok(place) => {
            if place.place + place.length > size {
                return Some(FitFault::DataOutside);
            }
            None
        }
        Err(fault) => Some(fault),
    }
}

pub(crate) fn first_fault<S: Source>(
    source: &mut S,
    size: u64,
    totalsize: u32,
    images: &[ImageFacts],
) -> Result<Option<FitFault>, SurveyFault>
    requires inside { All (ImageInside totalsize) images.now }
    requires blob { totalsize ≤ length (S.device source.old).bytes }
    ensures uses { Asks (12 * length images.now) (is_unread result)
        (S.device source.old) (S.device source.new) }
    ensures own { IsOwn result }
    ensures told { IfHonest S.device source (λ file. IfOk result (λ found.
        found ≡ first_fault size totalsize (map (read_image file) images.now))) }
{
    for image in images {
        let place = find_place(source, totalsize, &image.payload)?;
        let fault = fault_of(size, place);
        if fault.is_some() {
            return Ok(fault);
        }
    }
    Ok(None)
}
