//! Whether a token is covered, and which nodes are open after it.

ghost use Rattle.std.specs.Prelude.{◌≡◌, ◌-◌, ◌^◌, ◌||◌, ◌&&◌, ◌==◌, ◌%◌, ◌+◌, ◌≤◌, not, false, true, ℕ, List, Bool, IfOk, IfErr};
ghost use Rattle.uimg_blob_reading.specs.{Tokens.Token, ReadTokens.{IsReadAs, Stands}};
ghost use Rattle.uimg_signing.specs.Covering.{innermost, outside, is_exempt_key};
ghost use Rattle.uimg_signing.specs.Turning.{coded, Turns, IsShallow, LiesBefore};
ghost use Rattle.uimg_signing.specs.{Faults.is_unread, Going.RefusesTurn};

use crate::faults::SigningFault;
use uimg_base::up4;
use uimg_blob_reading::{Key, ReadToken};

// The least number of open nodes that are too deep.
const DEEPEST: u64 = 0x4_0000_0000;

/// The state of a walk over the tokens: the offset of the next token, the open nodes, and how many
/// bytes of strings hold signed names. The open nodes are bits: the lowest says whether the innermost
/// node is listed, the next one whether its parent is, and so on. Above them is 4.
#[derive(Clone, Copy)]
pub(crate) struct Walk {
    pub(crate) at: u64,
    pub(crate) bits: u64,
    pub(crate) names: u64,
}

/// What is done at a token.
#[derive(Clone, Copy)]
pub(crate) struct Turn {
    /// Whether its bytes are signed.
    pub(crate) is_covered: bool,
    /// How many bytes it has.
    pub(crate) size: u64,
    /// The open nodes after it.
    pub(crate) bits: u64,
    /// Whether it ends the tree.
    pub(crate) is_last: bool,
    /// Whether it is a property.
    pub(crate) is_property: bool,
}

// Returns whether the innermost node is listed.
fn is_inside(bits: u64) -> bool
    ensures listed { (listed : ℕ → Bool) (nodes : List ℕ) → bits ≡ coded listed nodes →
        result ≡ innermost listed nodes }
    ensures odd { result ≡ (bits % 2 == 1) }
{
    bits % 2 == 1
}

// Returns whether the innermost node or the one around it is listed.
fn is_at_edge(bits: u64) -> bool
    ensures { (listed : ℕ → Bool) (nodes : List ℕ) → bits ≡ coded listed nodes →
        result ≡ (innermost listed nodes || innermost listed (outside nodes)) }
{
    is_inside(bits) || is_inside(bits / 2)
}

// Returns whether a property with this key is never signed.
fn is_exempt(key: Option<Key>) -> bool
    ensures { result ≡ is_exempt_key key }
{
    match key {
        Some(Key::Data) => true,
        Some(Key::DataSize) => true,
        Some(Key::DataPosition) => true,
        Some(Key::DataOffset) => true,
        _ => false,
    }
}

// Returns whether a property of the innermost node is signed.
fn is_signed(bits: u64, key: Option<Key>) -> bool
    ensures { (listed : ℕ → Bool) (nodes : List ℕ) → bits ≡ coded listed nodes →
        result ≡ (innermost listed nodes && not (is_exempt_key key)) }
{
    if is_exempt(key) {
        return false;
    }
    is_inside(bits)
}

// Returns what is done at a token. `marks` has the offsets of the listed nodes.
pub(crate) fn turn_at(marks: &[u64], walk: Walk, token: ReadToken) -> Result<Turn, SigningFault>
    requires stands { Stands (2 ^ 32 - 1) walk.at token }
    ensures no_read { is_unread result ≡ false }
    ensures refused { IfErr result (λ fault. (listed : ℕ → Bool) (nodes : List ℕ) (t : Token) →
        walk.bits ≡ coded listed nodes → IsReadAs walk.at t token → RefusesTurn fault nodes t) }
    ensures fits { IfOk result (λ turn. (end : ℕ) → Stands end walk.at token →
        walk.at + 4 ≤ end) }
    ensures shallow { IfOk result (λ turn. IsShallow walk.at walk.bits token) }
    ensures turns { IfOk result (λ turn. Turns marks.now walk token turn) }
    ensures lies { IfOk result (λ turn. LiesBefore walk turn) }
{
    match token {
        ReadToken::BeginNode { length, label: _ } => {
            if walk.bits >= DEEPEST {
                return Err(SigningFault::TooDeep);
            }
            let mark = if marks.contains(&walk.at) { 1 } else { 0 };
            let bits = walk.bits * 2 + mark;
            Ok(Turn {
                is_covered: is_at_edge(bits),
                size: 4 + up4(length as u64 + 1),
                bits,
                is_last: false,
                is_property: false,
            })
        }
        ReadToken::EndNode => {
            if walk.bits < 8 {
                return Err(SigningFault::Changed);
            }
            Ok(Turn {
                is_covered: is_at_edge(walk.bits),
                size: 4,
                bits: walk.bits / 2,
                is_last: false,
                is_property: false,
            })
        }
        ReadToken::Prop { length, key } => Ok(Turn {
            is_covered: is_signed(walk.bits, key),
            size: 12 + up4(length as u64),
            bits: walk.bits,
            is_last: false,
            is_property: true,
        }),
        ReadToken::Nop => Ok(Turn {
            is_covered: is_inside(walk.bits),
            size: 4,
            bits: walk.bits,
            is_last: false,
            is_property: false,
        }),
        ReadToken::End => Ok(Turn {
            is_covered: true,
            size: 4,
            bits: walk.bits,
            is_last: true,
            is_property: false,
        }),
        _ => Err(SigningFault::Changed),
    }
}
