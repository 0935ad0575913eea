// Lines of the funnel, taken at the fronts of the peers that they name.
ghost use Rattle.std.specs.Prelude.{◌≡◌, ◌+◌, ◌-◌, ◌<◌, ◌≤◌, ◌^◌, [], length};
ghost use Rattle.std.specs.Prelude.{slice_index_or, true, false, if◌then◌else◌, IfOk, IfErr, OnOk, OnErr, max};
ghost use Rattle.std.specs.Prelude.{nat_lt, ◌≢◌, ◌↔◌, IsErr, IsErrOf, Contains};
ghost use Rattle.flusher.specs.Faults.{IsLineFault};
ghost use Rattle.flusher.specs.Marks.{IsRaised, IsRaisedBy, IsTakenAt, RefusesGood, RefusesLine, rises};
ghost use Rattle.flusher.specs.Refuses.{RefusesTaking};
ghost use Rattle.flusher.specs.Reports.{KeepsReport};
ghost use Rattle.flusher.specs.Room.{IsCountFull};
ghost use Rattle.flusher.specs.Sent.{SendsNothing};
ghost use Rattle.flusher.specs.Takes.{TakesLine};
ghost use Rattle.note_queue.specs.Words.{front_of};
ghost use Rattle.peer_queue.specs.Front.{IsSame};

use crate::fault::TakeFault;
use crate::front_desk::FrontDesk;
use crate::naming::{TakenAtStations, TakenByIntake};
use crate::pace::{Free, Pace, Place, Who};
use crate::sealing::TakenLine;
use crate::share::IntakeShare;
use crate::tally::Books;
use crate::{Naming, Post, PostFault};
use disk_model::Disk;
use funnel::{FunnelLine, LineFault, read_line};
use std::sync::Wait;
use std::sync::ledger::Share;

impl<D: Disk, N: Naming> Post<D, N> {
    /// Takes a funnel line at the front of each peer that it names, and returns its number, the one after the last.
    ///
    /// # Errors
    /// `CountFull` if the line's number would pass the greatest u64; `NoMemory`; then, for each peer that a valid line
    /// names, in order: `CountFull` if the tally of taken debts has no room for 65,537 more; `Stranger`; the station's.
    /// The peers before the one that refused have taken the line: give it again, and it gets the same number.
    #[tactic(auto, using(crate::proofs::Rises::rises_same))]
    pub fn take_line<R: Wait>(
        &self,
        rt: &R,
        line: &[u8],
        share: &mut IntakeShare<N>,
    ) -> Result<u64, PostFault>
        ensures marks { length share.new.marks ≡ length share.old.marks }
        ensures number { IfOk result (λ n. (n ≡ share.old.last + 1) × (share.new.last ≡ n)) }
        ensures raised { IfOk result
            (λ n. IsRaised n line.now self.now.names share.old.marks share.new.marks) }
        ensures counted { share.new.taken ≡ share.old.taken
            + rises share.old.marks share.new.marks }
        ensures count_full { share.old.last ≡ 2 ^ 64 - 1 → result ≡ Err PostFault.CountFull }
        ensures refuses { IfErr result (λ fault. RefusesLine (share.old.last + 1) line.now
            self.now.names fault share.old.marks share.new.marks) }
        ensures stays { OnErr result (share.new.last ≡ share.old.last) }
    {
        self.take_line_at(rt, line, share, &Free)
    }

    /// Takes a funnel line as [`Post::take_line`] does. The pace is asked before the line's number is shown: until then
    /// no receipt has it, so a flush may run in between.
    ///
    /// # Errors
    /// Those of [`Post::take_line`].
    #[tactic(auto, using(crate::proofs::Rises::rises_same))]
    pub fn take_line_at<P: Pace, R: Wait>(
        &self,
        rt: &R,
        line: &[u8],
        share: &mut IntakeShare<N>,
        pace: &P,
    ) -> Result<u64, PostFault>
        ensures marks { length share.new.marks ≡ length share.old.marks }
        ensures number { IfOk result (λ n. (n ≡ share.old.last + 1) × (share.new.last ≡ n)) }
        ensures raised { IfOk result
            (λ n. IsRaised n line.now self.now.names share.old.marks share.new.marks) }
        ensures counted { share.new.taken ≡ share.old.taken
            + rises share.old.marks share.new.marks }
        ensures count_full { share.old.last ≡ 2 ^ 64 - 1 → result ≡ Err PostFault.CountFull }
        ensures refuses { IfErr result (λ fault. RefusesLine (share.old.last + 1) line.now
            self.now.names fault share.old.marks share.new.marks) }
        ensures stays { OnErr result (share.new.last ≡ share.old.last) }
    {
        let Some(number) = share.last.checked_add(1) else {
            return Err(PostFault::CountFull);
        };
        let shown = &self.last;
        let IntakeShare { taken, marks, last } = share;
        let line = self.take_whole(rt, number, line, taken, marks)?;
        pace.turn(Who::Intake, Place::BeforeShow);
        shown.show(rt, line, last);
        Ok(number)
    }

    // Takes a line of this number at each station whose peer it names. Once it is shown, receipts may have its number.
    #[tactic(auto, using(crate::proofs::Rises::rises_same))]
    fn take_whole<R: Wait>(
        &self,
        rt: &R,
        number: u64,
        line: &[u8],
        taken: &mut Share<TakenByIntake<N>>,
        marks: &mut Vec<u64>,
    ) -> Result<TakenLine, PostFault>
        requires marks { length marks.old.items ≡ length self.now.names }
        requires part { taken.old.parts ≡ 1 }
        ensures number { IfOk result (λ taken. taken.number ≡ number) }
        ensures marks { length marks.new.items ≡ length marks.old.items }
        ensures raised { OnOk result
            (IsRaised number line.now self.now.names marks.old.items marks.new.items) }
        ensures counted { taken.new.amount ≡ taken.old.amount
            + rises marks.old.items marks.new.items }
        ensures refuses { IfErr result (λ fault. RefusesLine number line.now self.now.names fault
            marks.old.items marks.new.items) }
        ensures part { taken.new.parts ≡ 1 }
    {
        self.take_read(rt, number, line, taken, marks)?;
        Ok(TakenLine::raised(self, number, line, marks))
    }

    // Takes a line of this number at each station whose peer it names.
    #[tactic(auto, using(crate::proofs::Rises::rises_same))]
    fn take_read<R: Wait>(
        &self,
        rt: &R,
        number: u64,
        line: &[u8],
        taken: &mut Share<TakenByIntake<N>>,
        marks: &mut Vec<u64>,
    ) -> Result<(), PostFault>
        requires marks { length marks.old.items ≡ length self.now.names }
        requires part { taken.old.parts ≡ 1 }
        ensures marks { length marks.new.items ≡ length marks.old.items }
        ensures raised { OnOk result
            (IsRaised number line.now self.now.names marks.old.items marks.new.items) }
        ensures counted { taken.new.amount ≡ taken.old.amount
            + rises marks.old.items marks.new.items }
        ensures refuses { IfErr result (λ fault. RefusesLine number line.now self.now.names fault
            marks.old.items marks.new.items) }
        ensures part { taken.new.parts ≡ 1 }
    {
        match read_line(self.alloc, line) {
            Ok(line) => self.take_good(rt, number, &line, taken, marks),
            Err(LineFault::NoMemory) => Err(PostFault::NoMemory),
            Err(LineFault::TooLong) => Ok(()),
            Err(LineFault::NoToken) => Ok(()),
            Err(LineFault::BadToken) => Ok(()),
            Err(LineFault::BadId) => Ok(()),
        }
    }

    // Takes a valid line at each station whose peer it names, in order.
    fn take_good<R: Wait>(
        &self,
        rt: &R,
        number: u64,
        line: &FunnelLine,
        taken: &mut Share<TakenByIntake<N>>,
        marks: &mut Vec<u64>,
    ) -> Result<(), PostFault>
        requires marks { length marks.old.items ≡ length self.now.names }
        requires part { taken.old.parts ≡ 1 }
        ensures marks { length marks.new.items ≡ length marks.old.items }
        ensures raised { OnOk result
            (IsRaisedBy number line.now.peers.items self.now.names marks.old.items
            marks.new.items) }
        ensures counted { taken.new.amount ≡ taken.old.amount
            + rises marks.old.items marks.new.items }
        ensures refuses { IfErr result (λ fault. RefusesGood number line.now.peers.items
            self.now.names fault marks.old.items marks.new.items) }
        ensures part { taken.new.parts ≡ 1 }
    {
        for peer in 0..self.peers.len() {
            self.take_named(rt, peer, number, line, taken, marks)?;
        }
        Ok(())
    }

    // Takes a valid line at a station, if the line names its peer.
    fn take_named<R: Wait>(
        &self,
        rt: &R,
        peer: usize,
        number: u64,
        line: &FunnelLine,
        taken: &mut Share<TakenByIntake<N>>,
        marks: &mut Vec<u64>,
    ) -> Result<(), PostFault>
        requires peer { peer < length self.now.names }
        requires marks { length marks.old.items ≡ length self.now.names }
        requires part { taken.old.parts ≡ 1 }
        ensures taken { OnOk result
            (IsTakenAt number line.now.peers.items
            (slice_index_or self.now.names peer []) peer marks.old.items marks.new.items
            taken.old.amount taken.new.amount) }
        ensures unchanged { OnErr result
            ((marks.new.items ≡ marks.old.items) × (taken.new.amount ≡ taken.old.amount)) }
        ensures named { IsErr result
            → Contains line.now.peers.items (slice_index_or self.now.names peer []) }
        ensures kinds { IfErr result (IsLineFault (λ at. at ≡ peer)) }
        ensures part { taken.new.parts ≡ 1 }
    {
        if !line.names(&self.peers[peer].name) {
            return Ok(());
        }
        let mut mark = marks[peer];
        self.take_at(rt, peer, number, line, taken, &mut mark)?;
        marks[peer] = mark;
        Ok(())
    }

    // Takes a valid line at a station, and sends what is unsent there.
    fn take_at<R: Wait>(
        &self,
        rt: &R,
        peer: usize,
        number: u64,
        line: &FunnelLine,
        taken: &mut Share<TakenByIntake<N>>,
        mark: &mut u64,
    ) -> Result<(), PostFault>
        requires peer { peer < length self.now.names }
        requires part { taken.old.parts ≡ 1 }
        ensures marked { OnOk result (mark.new ≡ max mark.old number) }
        ensures counted { OnOk result
            (taken.new.amount ≡ taken.old.amount + (if nat_lt mark.old number then 1 else 0)) }
        ensures unchanged { OnErr result
            ((mark.new ≡ mark.old) × (taken.new.amount ≡ taken.old.amount)) }
        ensures kinds { IfErr result (IsLineFault (λ at. at ≡ peer)) }
        ensures part { taken.new.parts ≡ 1 }
    {
        let mut desk = self.front(rt, peer);
        let before = desk.pending();
        let took = self.take_counted(rt, peer, &mut desk, number, line, taken, mark);
        self.note_half_full(peer, before, desk.pending());
        let _ = self.send(rt, peer, &mut desk);
        took
    }

    // Takes a valid line at a front, and counts it among what was taken.
    fn take_counted<R: Wait>(
        &self,
        rt: &R,
        peer: usize,
        desk: &mut FrontDesk<N>,
        number: u64,
        line: &FunnelLine,
        taken: &mut Share<TakenByIntake<N>>,
        mark: &mut u64,
    ) -> Result<(), PostFault>
        requires part { taken.old.parts ≡ 1 }
        ensures marked { OnOk result (mark.new ≡ max mark.old number) }
        ensures counted { OnOk result
            (taken.new.amount ≡ taken.old.amount + (if nat_lt mark.old number then 1 else 0)) }
        ensures takes { OnOk result (TakesLine mark.old number line.now.token line.now.id
            (front_of desk.old.seat.sender) (front_of desk.new.seat.sender)) }
        ensures unchanged { OnErr result ((mark.new ≡ mark.old)
            × (taken.new.amount ≡ taken.old.amount)
            × IsSame (front_of desk.old.seat.sender) (front_of desk.new.seat.sender)) }
        ensures kinds { IfErr result (IsLineFault (λ at. at ≡ peer)) }
        ensures sends { SendsNothing desk.old.seat desk.new.seat }
        ensures part { taken.new.parts ≡ 1 }
        ensures keeps_report { KeepsReport desk.old desk.new }
    {
        let mut books = self.taken.lock(rt);
        take_in(peer, desk, &mut books, number, line, taken, mark)
    }
}

// Takes a valid line at a front, if its number is above the mark, and counts it in these books.
fn take_in<N: Naming>(
    peer: usize,
    desk: &mut FrontDesk<N>,
    books: &mut Books<TakenByIntake<N>, TakenAtStations<N>>,
    number: u64,
    line: &FunnelLine,
    taken: &mut Share<TakenByIntake<N>>,
    mark: &mut u64,
) -> Result<(), PostFault>
    requires part { taken.old.parts ≡ 1 }
    ensures marked { OnOk result (mark.new ≡ max mark.old number) }
    ensures counted { OnOk result
        (taken.new.amount ≡ taken.old.amount + (if nat_lt mark.old number then 1 else 0)) }
    ensures takes { OnOk result (TakesLine mark.old number line.now.token line.now.id
        (front_of desk.old.seat.sender) (front_of desk.new.seat.sender)) }
    ensures unchanged { OnErr result ((mark.new ≡ mark.old)
        × (taken.new.amount ≡ taken.old.amount)
        × IsSame (front_of desk.old.seat.sender) (front_of desk.new.seat.sender)) }
    ensures refuses { RefusesTaking peer (IsCountFull books.old) mark.old number
        (front_of desk.old.seat.sender) result }
    ensures kinds { IfErr result (IsLineFault (λ at. at ≡ peer)) }
    ensures sends { SendsNothing desk.old.seat desk.new.seat }
    ensures part { taken.new.parts ≡ 1 }
    ensures keeps_report { KeepsReport desk.old desk.new }
{
    if books.is_full() {
        return Err(PostFault::CountFull);
    }
    match desk.take(books, taken, mark, number, line) {
        Ok(()) => Ok(()),
        Err(TakeFault::Stranger) => Err(PostFault::Stranger { peer }),
        Err(TakeFault::Station(fault)) => Err(PostFault::Station { peer, fault }),
    }
}
