// The first record of a segment, whose octets a rotation changes.
ghost use Rattle.std.specs.Prelude.{◌≡◌};
ghost use Rattle.owed_list.specs.FirstRecord.{first_record_of};

const OPEN_GATE: u8 = 0xa5;

// The length of a record before its payload: the gate and the payload's length.
const RECORD_HEAD_OCTETS: usize = 5;

/// The octets of the first record of a segment, or all octets if it is not whole. If the first gate is closed there
/// is no record: then it is that gate.
pub(crate) fn first_record(octets: &[u8]) -> &[u8]
    ensures { result.now ≡ first_record_of octets.now }
{
    let len = match octets {
        [gate, ..] if *gate != OPEN_GATE => 1,
        [_, a, b, c, d, ..] => RECORD_HEAD_OCTETS + u32::from_be_bytes([*a, *b, *c, *d]) as usize,
        _ => octets.len(),
    };
    &octets[..len.min(octets.len())]
}
