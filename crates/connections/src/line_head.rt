// The beginning of a line that comes in pieces.
use std::alloc::Global;

/// How many octets of what a peer sent are logged.
pub(crate) const SHOWN_MAX_OCTETS: usize = 80;

/// The first 80 octets of the line of which no end has come yet.
#[derive(Drop)]
pub(crate) struct LineHead {
    octets: Vec<u8>,
}

impl LineHead {
    pub fn new(alloc: Global) -> Self {
        LineHead {
            octets: Vec::new(alloc),
        }
    }

    pub fn octets(&self) -> &[u8] {
        &self.octets
    }

    /// These octets came. If memory is refused, some of them are left out.
    pub fn add(&mut self, octets: &[u8]) {
        let rest = match octets.iter().rposition(|octet| *octet == b'\n') {
            Some(at) => {
                self.octets.clear();
                octets.get(at + 1..).unwrap_or(&[])
            }
            None => octets,
        };
        let room = SHOWN_MAX_OCTETS.saturating_sub(self.octets.len());
        let _ = self
            .octets
            .extend_from_slice(rest.get(..room).unwrap_or(rest));
    }
}
