// What is found in the locks of a peer, if it is another peer's.
ghost use Rattle.std.specs.Prelude.{◌≡◌};

use crate::Naming;
use crate::front_desk::FrontDesk;
use crate::tape_desk::TapeDesk;
use disk_model::Disk;

/// What the locks of a peer held, if it is not this peer's front and this peer's tape.
#[derive(Drop)]
pub struct Stray<D: Disk, N: Naming> {
    // The peer's place.
    pub(crate) place: usize,
    pub(crate) front: FrontDesk<N>,
    pub(crate) tape: TapeDesk<D, N>,
    ghost mismatch: { (front.seat.place ≡ place) × (tape.place ≡ place) → ⊥ },
}

impl<D: Disk, N: Naming> Stray<D, N> {
    /// The peer's place in the post's order, counted from 0.
    pub fn place(&self) -> usize
        ensures { result ≡ self.now.place }
    {
        self.place
    }
}
