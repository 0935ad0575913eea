// A text as clauses see it.
ghost use Rattle.std.specs.Prelude.{◌≡◌, ◌≤◌, length};

use std::marker::Model;

// The octets of a text of at most 255, in a value that has a size, since no snapshot can be taken of a slice. Only
// snapshots are made of it, so a compiled program makes none.
#[derive(Drop)]
pub(crate) struct Text {
    len: u8,
    octets: [u8; 255],
}

impl Model for Text {
    ghost use Rattle.std.specs.Prelude.{ℕ, List, take};

    ghost Value = { List ℕ };

    ghost view = { λ text. take text.len text.octets };
}

impl Text {
    pub(crate) fn of(text: &[u8]) -> Self
        requires { length text.now ≤ 255 }
        ensures { result ≡ text.now }
    {
        let mut octets = [0; 255];
        octets[..text.len()].copy_from_slice(text);
        Text {
            len: text.len() as u8,
            octets,
        }
    }
}
