// A copy of a text, in the room of the copy before it.
ghost use Rattle.std.specs.Prelude.{◌≡◌, IfOk};

use bytes::{Bytes, BytesMut};
use std::alloc::{AllocError, Global};

// A shorter copy costs less in room of its own, in octets.
const REUSED_MIN_OCTETS: usize = 65_536;

// A longer copy's room is not kept, in octets.
const REUSED_MAX_OCTETS: usize = 4_194_304;

// Copies a text. A long one goes into the room of the last long one, if nobody else has that any more.
pub(crate) fn copy_of(
    alloc: Global,
    text: &[u8],
    last: &mut Option<Bytes>,
) -> Result<Bytes, AllocError>
    ensures { IfOk result (λ copy. copy ≡ text.now) }
{
    if text.len() < REUSED_MIN_OCTETS || text.len() > REUSED_MAX_OCTETS {
        return Bytes::copy_from_slice(alloc, text);
    }
    let copy = match room_of(last.take()) {
        Some(room) => copy_into(room, text)?,
        None => Bytes::copy_from_slice(alloc, text)?,
    };
    *last = copy.clone().ok();
    Ok(copy)
}

// The room of a copy, if nobody else has that any more.
fn room_of(copy: Option<Bytes>) -> Option<BytesMut> {
    copy?.reclaim()
}

fn copy_into(room: BytesMut, text: &[u8]) -> Result<Bytes, AllocError>
    ensures { IfOk result (λ copy. copy ≡ text.now) }
{
    let mut room = room;
    room.clear();
    room.extend_from_slice(text)?;
    Ok(room.freeze()?)
}
