//! Names of nodes, read from their image.

ghost use Rattle.std.specs.Prelude.{◌≡◌, ◌≤◌, ◌+◌, ◌↔◌, length, take, is_err, IfOk, IfSome, IsSome};
ghost use Rattle.uimg_base.specs.Honest.{HonestSource};
ghost use Rattle.uimg_base.specs.Using.{Asks};
ghost use Rattle.uimg_fit_reading.specs.Values.{in_span};

use uimg_base::{Source, SourceFault, Span};

/// The longest name, in bytes.
const NAME_LEN: usize = 255;

/// The name of a node, of at most 255 bytes.
#[derive(Clone, Copy, Debug)]
pub struct NodeName {
    bytes: [u8; NAME_LEN],
    length: usize,
    ghost short: { length ≤ 255 },
}

impl NodeName {
    /// Returns the bytes of the name.
    pub fn bytes(&self) -> &[u8]
        ensures { result.now ≡ take self.now.length self.now.bytes }
    {
        &self.bytes[..self.length]
    }

    /// Returns a name of these bytes, if they are at most 255.
    pub fn of(bytes: &[u8]) -> Option<NodeName>
        ensures bytes { IfSome result (λ name. take name.length name.bytes ≡ bytes.now) }
        ensures some { IsSome result ↔ (length bytes.now ≤ 255) }
    {
        if bytes.len() > NAME_LEN {
            return None;
        }
        let mut name = [0; NAME_LEN];
        name[..bytes.len()].copy_from_slice(bytes);
        Some(NodeName {
            bytes: name,
            length: bytes.len(),
        })
    }
}

// Reads at most 255 bytes of the name.
pub(super) fn read_name<S: Source>(source: &mut S, span: Span) -> Result<NodeName, SourceFault>
    requires { span.place + span.length ≤ length (S.device source.old).bytes }
    ensures uses { Asks 255 (is_err result) (S.device source.old) (S.device source.new) }
    ensures bytes { HonestSource S.device source → span.length ≤ 255 → IfOk result
        (λ name. take name.length name.bytes ≡ in_span (S.device source.old).bytes span) }
{
    let length = u64::min(span.length, NAME_LEN as u64) as usize;
    let mut bytes = [0; NAME_LEN];
    source.fill_at(span.place, &mut bytes[..length])?;
    Ok(NodeName { bytes, length })
}
