//! Writes a payload while it is summed: each byte is requested once.

ghost use Rattle.std.specs.Prelude.{◌≡◌, ◌+◌, ◌≤◌, length, IfOk};
ghost use Rattle.uimg_base.specs.Ranges.{is_read};
ghost use Rattle.uimg_base.specs.Using.{Asks};
ghost use Rattle.uimg_fit_checking.specs.Copies.{TakesPayload};

use std::alloc::Allocator;
use std::io::Write;
use uimg_base::{MoveFault, Out, Room, Source, Span, take_through};
use uimg_fit_base::{AlgoSet, Digests};

// The digests are those of what was written, whatever the source returned.
pub(super) fn take_payload<S: Source, A: Allocator, W: Write>(
    source: &mut S,
    room: &mut Room<A>,
    set: AlgoSet,
    payload: Span,
    out: &mut Out<W>,
) -> Result<Digests, MoveFault>
    requires { payload.place + payload.length ≤ length (S.device source.old).bytes }
    ensures uses { Asks payload.length (is_read result)
        (S.device source.old) (S.device source.new) }
    ensures room { room.new ≡ room.old }
    ensures taken { IfOk result (λ digests. TakesPayload S.device source payload set digests out) }
{
    let mut sums = set.sums();
    let (at, len) = (payload.place, payload.length);
    take_through(source, room.window(), at, len, &mut sums, out)?;
    Ok(Digests::of(set, sums))
}
