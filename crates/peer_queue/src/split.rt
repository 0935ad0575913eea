// A station becomes a front and its tape.
ghost use Rattle.std.specs.Prelude.{◌≡◌, IfErr, IfOk};
ghost use Rattle.peer_queue.specs.Front.{IsFrontOf, IsPlaced};
ghost use Rattle.peer_queue.specs.Words.{pending_of, tape_of};

use crate::Station;
use crate::front::Front;
use crate::outbox::Outbox;
use disk_model::Disk;
use recovery::Tape;
use std::alloc::AllocError;

impl<D: Disk> Station<D> {
    /// Splits a station, of which no note pends, into its front and its tape. Both get this place among those of other
    /// peers. The front begins with what the tape counts as settled; if the tape is broken, so is the front. Linear in
    /// what is owed.
    ///
    /// # Errors
    /// `NoMemory`: the station is handed back as it was.
    pub fn split(self, place: usize) -> Result<(Front, Tape<D>), (Station<D>, AllocError)>
        requires none_pends { pending_of self ≡ 0 }
        ensures front { IfOk result (λ parts. IsFrontOf place self parts.0) }
        ensures tape { IfOk result (λ parts. IsPlaced place (tape_of self) parts.1) }
        ensures returned { IfErr result (λ e. e.0 ≡ self) }
    {
        let outline = match self.tape.outline() {
            Ok(outline) => outline,
            Err(error) => return Err((self, error)),
        };
        let Station {
            alloc,
            mut tape,
            index,
            limits,
            ..
        } = self;
        let settled = tape.flushed();
        let broken = tape.is_broken();
        let outbox = Outbox::new(alloc, outline, place, settled, broken);
        tape.placed(place);
        let front = Front {
            alloc,
            outbox,
            index,
            limits,
        };
        Ok((front, tape))
    }
}
