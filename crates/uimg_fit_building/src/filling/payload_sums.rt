//! Sums of a payload by all algorithms in use, in one pass.

ghost use Rattle.std.specs.Prelude.{◌≡◌, ◌≤◌, ◌+◌, length, IsOkUnless, IfOk, OnOk};
ghost use Rattle.uimg_base.specs.{Honest.HonestSource, Device.RisesIf};
ghost use Rattle.uimg_blob_writing.specs.{Content.{content_bytes, file}, Properties.content};
ghost use Rattle.uimg_blob_writing.specs.LentFiles.{OfHonest};
ghost use Rattle.uimg_fit_building.specs.FillAnswers.{fails_to_read};
ghost use Rattle.uimg_fit_building.specs.PayloadSteps.{ReadsPayload, Feeds};
ghost use Rattle.uimg_fit_base.specs.AlgoSets.{set_of, AreDigests};
ghost use Rattle.uimg_fit_base.specs.declared.fault.FitFault.TheVariants.{ReadFailed};

use std::alloc::Allocator;
use uimg_base::{Bundle, Files, Source, WINDOW, feed_through};
use uimg_blob_writing::Value;
use uimg_fit_base::{AlgoSet, Digests, FitFault};

// Another size counts as a failed read.
fn feed_source<S: Source>(bundle: &mut Bundle, source: &mut S, size: u64) -> Result<(), FitFault>
    ensures fault { IsOkUnless result ReadFailed }
    ensures asked { (S.device source.new).asked ≤ (S.device source.old).asked + size }
    ensures sized { OnOk result (length (S.device source.old).bytes ≡ size) }
    ensures failures { length (S.device source.old).bytes ≡ size →
        RisesIf (fails_to_read result) (S.device source.old).failures (S.device source.new).failures }
    ensures fed { HonestSource S.device source →
        OnOk result (Feeds bundle (S.device source.old).bytes) }
{
    match source.size() {
        Ok(length) if length == size => {}
        _ => return Err(FitFault::ReadFailed),
    }
    let mut window = [0; WINDOW];
    match feed_through(bundle, source, &mut window, 0, size) {
        Ok(()) => Ok(()),
        Err(_) => Err(FitFault::ReadFailed),
    }
}

// Opens the file once and reads it once.
fn feed_file<F: Files>(
    bundle: &mut Bundle,
    name: &[u8],
    size: u64,
    files: &mut F,
) -> Result<(), FitFault>
    ensures reads { ReadsPayload F.Opened.steady F.map (file name.now size) result files }
    ensures fed { OfHonest F.map files (λ there.
        OnOk result (Feeds bundle (content_bytes there (file name.now size)))) }
{
    let Ok(mut source) = files.open(name) else {
        return Err(FitFault::NoFile);
    };
    feed_source(bundle, &mut source, size)
}

fn feed_payload<F: Files, A: Allocator>(
    bundle: &mut Bundle,
    payload: &Value<A>,
    files: &mut F,
) -> Result<(), FitFault>
    ensures reads { ReadsPayload F.Opened.steady F.map (content payload.now) result files }
    ensures fed { OfHonest F.map files (λ there.
        OnOk result (Feeds bundle (content_bytes there (content payload.now)))) }
{
    match payload {
        Value::Bytes(bytes) => {
            bundle.feed(bytes.items());
            Ok(())
        }
        Value::File { name, size } => feed_file(bundle, name.items(), *size, files),
    }
}

pub(crate) fn payload_digests<F: Files, A: Allocator>(
    set: AlgoSet,
    payload: &Value<A>,
    files: &mut F,
) -> Result<Digests, FitFault>
    ensures reads { ReadsPayload F.Opened.steady F.map (content payload.now) result files }
    ensures set { IfOk result (λ digests. set_of digests ≡ set) }
    ensures digests { OfHonest F.map files (λ there.
        IfOk result (λ digests. AreDigests digests (content_bytes there (content payload.now)))) }
{
    let mut sums = set.sums();
    feed_payload(&mut sums, payload, files)?;
    Ok(Digests::of(set, sums))
}
