// Command lines, written to an output that has room for them.
ghost use Rattle.std.specs.Prelude.{◌≡◌, ◌+◌, ◌++◌, ◌≤◌, ◌⊎◌, [], drop, length};
ghost use Rattle.conn_core.specs.Commands.{line_end};

use bytes::BytesMut;
use funnel::MsgId;

const LINE_END: &[u8] = b"\r\n";

// The length of our longest command line without its message-id: TAKETHIS, a space, CR and LF, in octets.
pub(crate) const VERB_MAX_OCTETS: usize = 11;

// The length of MODE STREAM with CR and LF, in octets.
pub(crate) const MODE_STREAM_OCTETS: usize = 13;

// The length of QUIT with CR and LF, in octets.
pub(crate) const QUIT_OCTETS: usize = 6;

// Writes a command line: the verb with its space, the message-id, CR and LF (RFC 3977, section 3.1).
pub(crate) fn put_line(output: &mut BytesMut, verb: &[u8], id: &[u8])
    requires { length verb.now + length id.now + 2 ≤ output.old.spare }
    ensures items { output.new.items ≡ output.old.items ++ (verb.now ++ id.now ++ line_end) }
    ensures spare { output.new.spare + (length verb.now + length id.now + 2) ≡ output.old.spare }
{
    output.extend_reserved(verb);
    output.extend_reserved(id);
    output.extend_reserved(LINE_END);
}

// The length of a message-id in octets. `few` lets callers add the length of a verb without overflow.
pub(crate) fn id_len(id: &MsgId) -> usize
    ensures value { result ≡ length id.now }
    ensures few { result ≤ 250 }
{
    id.bytes().len()
}

// The room that an empty output keeps, in octets. If it has more, that is given back.
const OUTPUT_KEPT_MAX_OCTETS: usize = 4_194_304;

// Drops all octets without a copy. Their room is free again; if it is more than an output keeps, it is given back.
pub(crate) fn empty(output: &mut BytesMut)
    ensures items { output.new.items ≡ [] }
    ensures spare { (6 ≤ output.new.spare) ⊎ (output.old.spare ≤ output.new.spare) }
{
    output.clear();
    if output.capacity() > OUTPUT_KEPT_MAX_OCTETS {
        give_room_back(output);
    }
}

// Gives the room back, all but that of the octets and of a QUIT. If memory is refused for those, it stays.
pub(crate) fn give_room_back(output: &mut BytesMut)
    ensures items { output.new.items ≡ output.old.items }
    ensures spare { (6 ≤ output.new.spare) ⊎ (output.old.spare ≤ output.new.spare) }
{
    let needed = output.len() + QUIT_OCTETS;
    if let Ok(mut small) = BytesMut::with_capacity(*output.allocator(), needed) {
        small.extend_reserved(output.as_slice());
        *output = small;
    }
}

// Drops the first `count` octets. Once all are gone, their room is free again or given back.
pub(crate) fn skip(output: &mut BytesMut, count: usize)
    requires { count ≤ length output.old.items }
    ensures items { output.new.items ≡ drop count output.old.items }
    ensures spare { (6 ≤ output.new.spare) ⊎ (output.old.spare ≤ output.new.spare) }
{
    output.advance(count);
    if output.is_empty() {
        empty(output);
    }
}
