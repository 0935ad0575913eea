// How a receipt is made.
ghost use Rattle.std.specs.Prelude.{◌≡◌, ◌+◌, ◌<◌, ℕ, List, IfOk, length};
ghost use Rattle.std.specs.Prelude.{replicate, slice_index_or, slice_set};
ghost use Rattle.flusher.specs.Marks.{IsRaised};
ghost use Rattle.flusher.specs.Sealed.{HasSettled, IsDoneBelow, IsSealed, SettlesDue, noted_at};
ghost use Rattle.note_queue.specs.Words.{front_of};
ghost use Rattle.recovery.specs.Words.{ledger_of};

use crate::front_desk::FrontDesk;
use crate::post::Intake;
use crate::{Naming, Post};
use acknowledged_lines::Acknowledged;
use disk_model::Disk;
use recovery::Tape;
use std::alloc::{AllocError, Global};
use std::sync::{Mutex, Wait};

/// All lines up to this number are acknowledged. `Post::flush_all` alone makes one.
#[derive(Clone, Copy, Debug, PartialEq, Eq)]
pub struct Receipt {
    acknowledged: Acknowledged,
}

impl Receipt {
    pub fn number(&self) -> u64
        ensures { result ≡ self.now.acknowledged.number }
    {
        self.acknowledged.number()
    }

    pub fn acknowledged(&self) -> Acknowledged
        ensures { result ≡ self.now.acknowledged }
    {
        self.acknowledged
    }
}

/// The number of a line that all peers that it names have taken, or took before; or that up to which all lines are
/// acknowledged. So the last one that is shown is a number that a receipt may have, once all is flushed that was noted
/// before it was read. Only a post makes one.
#[derive(Clone, Copy)]
pub struct TakenLine {
    number: u64,
}

impl TakenLine {
    // That up to which all lines are acknowledged on the intake's tape.
    pub(crate) fn acknowledged<D: Disk>(intake: &Tape<D>) -> TakenLine
        ensures { result.number ≡ (ledger_of intake.now).mark }
    {
        TakenLine {
            number: intake.mark(),
        }
    }

    // That of a line that has raised the marks, in the intake's share, of all peers that it names.
    pub(crate) fn raised<D: Disk, N: Naming>(
        post: &Post<D, N>,
        number: u64,
        line: &[u8],
        marks: &[u64],
    ) -> TakenLine
        requires { (before : List ℕ)
            × IsRaised number line.now post.now.names before marks.now }
        ensures { result.number ≡ number }
    {
        let _ = post;
        let _ = line;
        let _ = marks;
        TakenLine { number }
    }

    pub(crate) fn number(self) -> u64
        ensures { result ≡ self.number }
    {
        self.number
    }
}

// The last line that was taken, as all threads see it. The intake alone shows one; the flusher reads it before it
// flushes the stations.
#[derive(Drop)]
pub(crate) struct LastTaken {
    shown: Mutex<TakenLine>,
}

impl LastTaken {
    pub(crate) fn new(line: TakenLine) -> LastTaken {
        LastTaken {
            shown: Mutex::new(line),
        }
    }

    // Shows the line after the last of the intake's share, which counts it.
    pub(crate) fn show<R: Wait>(&self, rt: &R, line: TakenLine, last: &mut u64)
        requires { line.number ≡ last.old + 1 }
        ensures { last.new ≡ line.number }
    {
        *last = line.number;
        *self.shown.lock(rt) = line;
    }

    pub(crate) fn read<R: Wait>(&self, rt: &R) -> TakenLine {
        *self.shown.lock(rt)
    }
}

/// Such a line, once the articles of all lines up to it are durable.
#[derive(Clone, Copy)]
pub struct SyncedLine {
    number: u64,
}

impl SyncedLine {
    /// Made by whoever sees to it that the articles are durable.
    pub fn of(last: TakenLine) -> SyncedLine
        ensures { result.number ≡ last.number }
    {
        SyncedLine {
            number: last.number,
        }
    }
}

/// What a receipt that is being made knows of a place. No public call takes or returns one: it is public for the laws
/// over all threads, which speak of it.
#[derive(Clone, Copy)]
pub enum PlaceProgress {
    /// Nothing yet.
    Waits,
    /// It found so many notes at the place's front, as their tape counts them.
    Due(u64),
    /// As many as it found there are settled.
    Done,
}

// A receipt that is being made: the number of the last line that was taken before the first flush, and what it knows of
// each place. The places may come in any order.
#[derive(Drop)]
pub(crate) struct Sealing {
    number: u64,
    places: Vec<PlaceProgress>,
}

// `count` notes are settled at a place, as their tape counts them. Only a front that has settled them makes one.
#[derive(Clone, Copy)]
pub(crate) struct Settlement {
    place: usize,
    count: u64,
}

impl Settlement {
    // Made by a front that is locked.
    pub(crate) fn of<N: Naming>(desk: &FrontDesk<N>, count: u64) -> Settlement
        requires { HasSettled count (front_of desk.now.seat.sender) }
        ensures { (result.place ≡ desk.now.seat.place) × (result.count ≡ count) }
    {
        Settlement {
            place: desk.seat.place,
            count,
        }
    }

    // How many notes are settled.
    pub(crate) fn count(&self) -> u64
        ensures { result ≡ self.now.count }
    {
        self.count
    }
}

impl Sealing {
    // Begins with the last line that was taken, for this many places. Nothing has been settled at any of them.
    pub(crate) fn begin(
        alloc: Global,
        last: SyncedLine,
        places: usize,
    ) -> Result<Sealing, AllocError>
        ensures number { IfOk result (λ sealing. sealing.number ≡ last.number) }
        ensures none { IfOk result
            (λ sealing. sealing.places.items ≡ replicate places PlaceProgress.Waits) }
    {
        Ok(Sealing {
            number: last.number,
            places: vec![in alloc; PlaceProgress::Waits; places]?,
        })
    }

    // The number of the last line that was taken before the first flush.
    pub(crate) fn number(&self) -> u64
        ensures { result ≡ self.now.number }
    {
        self.number
    }

    // Looks at a front that is locked, after the number was read: what is noted there is due at its place. Returns how
    // many notes these are.
    pub(crate) fn due<N: Naming>(&mut self, desk: &FrontDesk<N>) -> u64
        requires { desk.now.seat.place < length self.old.places.items }
        ensures count { result ≡ noted_at (front_of desk.now.seat.sender) }
        ensures due { self.new.places.items
            ≡ slice_set self.old.places.items desk.now.seat.place (PlaceProgress.Due result) }
        ensures number { self.new.number ≡ self.old.number }
    {
        let count = desk.noted();
        self.places[desk.seat.place] = PlaceProgress::Due(count);
        count
    }

    // Adds a place at which all is settled that was due there when this receipt looked. Then nothing is due there, so a
    // place is added once for each look.
    pub(crate) fn add(&mut self, settlement: Settlement)
        requires place { settlement.place < length self.old.places.items }
        requires due { SettlesDue settlement.count
            (slice_index_or self.old.places.items settlement.place PlaceProgress.Waits) }
        ensures done { self.new.places.items
            ≡ slice_set self.old.places.items settlement.place PlaceProgress.Done }
        ensures number { self.new.number ≡ self.old.number }
    {
        self.places[settlement.place] = PlaceProgress::Done;
    }

    // Makes the receipt, once all is settled at each place, and the number is on the intake tape's disks.
    pub(crate) fn receipt<D: Disk, N: Naming>(
        self,
        post: &Post<D, N>,
        intake: &Intake<D>,
    ) -> Receipt
        requires done { IsDoneBelow (length post.now.names) self.places.items }
        requires sealed { IsSealed self.number intake.now.tape }
        ensures { result.acknowledged.number ≡ self.number }
    {
        let _ = post;
        Receipt {
            acknowledged: Acknowledged::of(&intake.tape).up_to(self.number),
        }
    }
}
