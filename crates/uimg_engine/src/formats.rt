//! The format that a file is read in.

ghost use Rattle.std.specs.Prelude.{◌≡◌, false, IfOk, is_err};
ghost use Rattle.uimg_base.specs.{Honest.HonestSource, Using.Asks};
ghost use Rattle.uimg_engine.specs.Headline.{is_fit};

use uimg_base::{Source, SourceFault};
use uimg_fit_base::begins_as_blob;
use uimg_requests::Form;

/// Returns whether a file is read as a FIT image: that is its form, or its form is a guess and it
/// begins as a blob does. Returns `SourceFault` exactly if a read failed.
pub fn is_fit<S: Source>(form: Form, source: &mut S) -> Result<bool, SourceFault>
    ensures uses { Asks 4 (is_err result) (S.device source.old) (S.device source.new) }
    ensures asked_for { form ≡ Form.Legacy → IfOk result (λ fit. fit ≡ false) }
    ensures told { HonestSource S.device source →
        IfOk result (λ fit. fit ≡ is_fit form (S.device source.old).bytes) }
{
    match form {
        Form::Guess => begins_as_blob(source),
        Form::Legacy => Ok(false),
        Form::Fit => Ok(true),
    }
}
