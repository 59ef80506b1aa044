//! The signature nodes of a checked image in its JSON object.

ghost use Rattle.std.specs.Prelude.{◌≡◌, ◌∷◌, [], codes, map};
ghost use Rattle.json.specs.Tree.{json_tokens};
ghost use Rattle.uimg_printing.specs.Members.{array_of, tokens_of};
ghost use Rattle.uimg_printing.specs.Steps.{Appends};
ghost use Rattle.uimg_checks.specs.Objects.{result_word, signature_json, signature_members, signatures_if, text_if};

use json::Writer;
use std::alloc::{AllocError, Global};
use uimg_base::before_nul;
use uimg_printing::{put_string, put_text};
use uimg_strict::Looseness;
use uimg_verifying::SignatureResult;

fn put_text_if(
    alloc: Global,
    writer: &mut Writer,
    key: &str,
    text: &Option<Vec<u8>>,
) -> Result<(), AllocError>
    ensures { Appends result writer.old writer.new (tokens_of (text_if key.now text.now)) }
{
    match text {
        Some(text) => put_text(alloc, writer, key, before_nul(text.as_slice())),
        None => Ok(()),
    }
}

fn result_word(refusal: Option<Looseness>) -> &'static str
    ensures { result.now ≡ result_word refusal }
{
    match refusal {
        None => "ok",
        Some(why) => why.word(),
    }
}

fn put_members(
    alloc: Global,
    writer: &mut Writer,
    signature: &SignatureResult,
) -> Result<(), AllocError>
    ensures { Appends result writer.old writer.new (tokens_of (signature_members signature.now)) }
{
    put_text(
        alloc,
        writer,
        "configuration",
        signature.configuration.as_slice(),
    )?;
    put_text(alloc, writer, "node", signature.node.as_slice())?;
    put_text_if(alloc, writer, "algo", &signature.algo)?;
    put_text_if(alloc, writer, "padding", &signature.padding)?;
    put_text_if(alloc, writer, "key", &signature.key)?;
    put_string(writer, "result", result_word(signature.refusal))?;
    Ok(())
}

fn put_signature(
    alloc: Global,
    writer: &mut Writer,
    signature: &SignatureResult,
) -> Result<(), AllocError>
    ensures { Appends result writer.old writer.new (json_tokens (signature_json signature.now)) }
{
    writer.begin_object()?;
    put_members(alloc, writer, signature)?;
    writer.end_object()?;
    Ok(())
}

fn put_signatures(
    alloc: Global,
    writer: &mut Writer,
    signatures: &[SignatureResult],
) -> Result<(), AllocError>
    ensures { Appends result writer.old writer.new
        (json_tokens (array_of (map signature_json signatures.now))) }
{
    writer.begin_array()?;
    for signature in signatures {
        put_signature(alloc, writer, signature)?;
    }
    writer.end_array()?;
    Ok(())
}

fn put_listed(
    alloc: Global,
    writer: &mut Writer,
    signatures: &[SignatureResult],
) -> Result<(), AllocError>
    ensures { Appends result writer.old writer.new
        (tokens_of ((codes "signatures", array_of (map signature_json signatures.now)) ∷ [])) }
{
    writer.key("signatures")?;
    put_signatures(alloc, writer, signatures)?;
    Ok(())
}

/// Writes the signature nodes, if there are any.
#[tactic(auto, unfolding(crate::specs::Objects::signatures_if))]
pub(crate) fn put_signatures_if(
    alloc: Global,
    writer: &mut Writer,
    signatures: &[SignatureResult],
) -> Result<(), AllocError>
    ensures { Appends result writer.old writer.new (tokens_of (signatures_if signatures.now)) }
{
    if signatures.is_empty() {
        return Ok(());
    }
    put_listed(alloc, writer, signatures)
}
