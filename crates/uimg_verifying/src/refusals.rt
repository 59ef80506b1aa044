//! The words of what is refused.

ghost use Rattle.std.specs.Prelude.{◌≡◌, Some, IfOk};
ghost use Rattle.uimg_signing.specs.Faults as signing;
ghost use Rattle.uimg_fit_checking.specs.SurveyParts.{is_unread};
ghost use Rattle.uimg_verifying.specs.Signatures.{StopsAs, why_judged, why_of, why_refused};

use uimg_fit_base::Fault;
use uimg_fit_checking::SurveyFault;
use uimg_rsa::Refusal;
use uimg_signing::SigningFault;
use uimg_strict::Looseness;

fn why_of(fault: SigningFault) -> Looseness
    ensures { result ≡ why_of fault }
{
    match fault {
        SigningFault::TooLong
        | SigningFault::TooManyNodes
        | SigningFault::Unhashed
        | SigningFault::TooDeep
        | SigningFault::EarlyEnd => Looseness::SignedNodes,
        SigningFault::NameUnsigned
        | SigningFault::BadStrings
        | SigningFault::StringsOffset
        | SigningFault::StringsOutside => Looseness::SignedStrings,
        _ => Looseness::UnknownSignature,
    }
}

fn why_refused(refusal: Refusal) -> Looseness
    ensures { result ≡ why_refused refusal }
{
    match refusal {
        Refusal::SignatureLength => Looseness::SignatureLength,
        Refusal::OutOfRange => Looseness::SignatureRange,
        _ => Looseness::BadSignature,
    }
}

/// Returns the word for a value, if RSA's verdict refuses it.
pub(crate) fn why_judged(verdict: Result<(), Refusal>) -> Option<Looseness>
    ensures { result ≡ why_judged verdict }
{
    match verdict {
        Ok(()) => None,
        Err(refusal) => Some(why_refused(refusal)),
    }
}

/// Returns the word for what a signature covers, unless a read failed or memory was refused.
pub(crate) fn stop(fault: SigningFault) -> Result<Option<Looseness>, SurveyFault>
    ensures { StopsAs fault result }
{
    match fault {
        SigningFault::Read => Err(SurveyFault::Stopped(Fault::Read)),
        SigningFault::OutOfMemory => Err(SurveyFault::OutOfMemory),
        fault => Ok(Some(why_of(fault))),
    }
}
