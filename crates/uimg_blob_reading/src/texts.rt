//! Texts of values, written or read from their spans.

ghost use Rattle.std.specs.Prelude.{◌≡◌, ◌+◌, ◌<◌, ◌≤◌, length, is_err, nat_lt, Some, None, IfOk, IfSome, if◌then◌else◌};
ghost use Rattle.std.specs.Option.{is_some};
ghost use Rattle.uimg_texts.specs.{Nul.{before_nul, text}, Slices.slice};
ghost use Rattle.uimg_base.specs.{Honest.HonestSource, Device.RisesIf, Ranges.{is_read, is_put}};
ghost use Rattle.uimg_base.specs.{Using.Asks, Writing.Written};
ghost use Rattle.uimg_blob_reading.specs.Texts.{PutsText, GivesShort};

use std::alloc::Allocator;
use std::io::Write;
use uimg_base::{MoveFault, Out, Room, Source, SourceFault, Span, WINDOW, before_nul};

// Writes at most one window of bytes. Returns whether a NUL ended the text.
fn put_window<S: Source, W: Write>(
    source: &mut S,
    window: &mut [u8; WINDOW],
    at: u64,
    len: usize,
    out: &mut Out<W>,
) -> Result<bool, MoveFault>
    requires range { at + len ≤ length (S.device source.old).bytes }
    requires window { len ≤ 8192 }
    ensures put { PutsText at len result (S.device source.old) (S.device source.new)
        out.old out.new }
    ensures ended { HonestSource S.device source → IfOk result (λ ended.
        ended ≡ is_some (before_nul (slice (S.device source.old).bytes at len))) }
{
    let window = &mut window[..len];
    if source.fill_at(at, window).is_err() {
        return Err(MoveFault::Read);
    }
    let text = before_nul(window);
    if out.put_all(text).is_err() {
        return Err(MoveFault::Put);
    }
    Ok(text.len() < len)
}

fn put_through<S: Source, W: Write>(
    source: &mut S,
    window: &mut [u8; WINDOW],
    span: Span,
    out: &mut Out<W>,
) -> Result<(), MoveFault>
    requires { span.place + span.length ≤ length (S.device source.old).bytes }
    ensures { PutsText span.place span.length result (S.device source.old) (S.device source.new)
        out.old out.new }
{
    let mut done = 0;
    while done < span.length {
        let next = u64::min(span.length - done, WINDOW as u64);
        if put_window(source, window, span.place + done, next as usize, out)? {
            return Ok(());
        }
        done += next;
    }
    Ok(())
}

/// Writes the text of a value: its bytes up to the first NUL, or all of them.
///
/// The span must be inside the source; at most its bytes are requested. Over an honest source, at
/// every exit, a prefix of the text was written. Only the room's window changes.
///
/// - `MoveFault::Read`: if and only if a read failed.
/// - `MoveFault::Put`: if and only if a write failed.
pub fn put_text<S: Source, A: Allocator, W: Write>(
    source: &mut S,
    room: &mut Room<A>,
    span: Span,
    out: &mut Out<W>,
) -> Result<(), MoveFault>
    requires { span.place + span.length ≤ length (S.device source.old).bytes }
    ensures uses { Asks span.length (is_read result) (S.device source.old) (S.device source.new) }
    ensures room { room.new ≡ room.old }
    ensures faults { RisesIf (is_put result) out.old.faults out.new.faults }
    ensures told { HonestSource S.device source → Written (is_err result) out.old out.new
        (text (slice (S.device source.old).bytes span.place span.length)) }
{
    put_through(source, room.window(), span, out)
}

// Returns the length of the text at the start of a value if it is below 32.
fn short_in(bytes: &[u8]) -> Option<usize>
    ensures { result ≡ (if nat_lt (length (text bytes.now)) 32 then Some (length (text bytes.now))
        else None) }
{
    let length = before_nul(bytes).len();
    if length < 32 { Some(length) } else { None }
}

/// Reads a value's text of at most 31 bytes to the start of `to`. Returns its length, or `None` if
/// it is longer.
///
/// The span must be inside the source; at most its bytes, and at most 32, are requested. Returns
/// `SourceFault` if and only if a read failed.
pub fn short_text<S: Source>(
    source: &mut S,
    span: Span,
    to: &mut [u8; 32],
) -> Result<Option<usize>, SourceFault>
    requires { span.place + span.length ≤ length (S.device source.old).bytes }
    ensures uses { Asks span.length (is_err result) (S.device source.old) (S.device source.new) }
    ensures few { (S.device source.new).asked ≤ (S.device source.old).asked + 32 }
    ensures bound { IfOk result (λ found. IfSome found (λ n. n ≤ 31)) }
    ensures text { HonestSource S.device source → IfOk result (λ found. GivesShort
        (text (slice (S.device source.old).bytes span.place span.length)) found to.new) }
{
    let length = u64::min(32, span.length) as usize;
    let start = &mut to[..length];
    source.fill_at(span.place, start)?;
    Ok(short_in(start))
}
