// What the flusher asks of a post.
ghost use Rattle.std.specs.Prelude.{◌≡◌, ◌≢◌, ◌⊎◌, ◌+◌, ◌<◌, ◌^◌, []};
ghost use Rattle.std.specs.Prelude.{◌↔◌, length, max, slice_set, IfErr, IfOk, IsErrOf, IsOk, OnErr, OnOk};
ghost use Rattle.flusher.specs.Faults.{IsDiskFault, IsFlushAllFault, IsFlushWorkingFault, IsOfPeer, IsPartFault};
ghost use Rattle.flusher.specs.Faults.{IsRotateAllFault, IsRoundFault, IsSealFault, IsWorkingFlushFault};
ghost use Rattle.flusher.specs.Flushes.{Acknowledges};
ghost use Rattle.flusher.specs.Sealed.{IsDoneBelow, IsSealed};
ghost use Rattle.flusher.specs.Sees.{RefusesSeeing, Sees, seen_notes};
ghost use Rattle.flusher.specs.declared.sealing.PlaceProgress.{PlaceProgress};
ghost use Rattle.recovery.specs.Notes.{History};
ghost use Rattle.recovery.specs.Rotates.{RefusesRotation};
ghost use Rattle.recovery.specs.Takes.{Takes};
ghost use Rattle.recovery.specs.Tape.{StandsFor};
ghost use Rattle.recovery.specs.Words.{IsBroken, IsDue, IsNoteFault, IsRotateFault, disks_of, faults_of};
ghost use Rattle.recovery.specs.Words.{generation_of, ledger_of};

use crate::article_sync::ArticleSync;
use crate::pace::{Pace, Place, Who};
use crate::post::Intake;
use crate::sealing::{Sealing, SyncedLine};
use crate::tape_desk::Flush;
use crate::{Naming, Post, PostFault, Receipt};
use disk_model::Disk;
use ledger_core::Note;
use peer_queue::StationFault;
use recovery::TapeFault;
use std::sync::Wait;

impl<D: Disk, N: Naming> Post<D, N> {
    /// Puts all that pends on the disks: peer by peer in the order of their names, each in rounds until all is settled
    /// that pended when its part began; and then, on the intake's tape, the number that the last line had before the
    /// first flush, once `articles` has made the articles of all lines up to it durable. If a tape has no room for what
    /// pends, it is rewritten, the notes that pend included.
    ///
    /// `None` if an article may not be durable: then it does what [`Post::flush_working`] does, and no line is
    /// acknowledged.
    ///
    /// # Errors
    /// A station's: `Broken`; `Tape(Disk)`, after which its front is broken, too; `Tape(TapeFull)` if what it owes is
    /// too long even for a rewritten tape, or if its tape has the greatest generation; `Tape(Note)`, which no run
    /// meets; `NoMemory`. `NoMemory` if the copy of a note found none. `Stranger`, which no run meets. Then the intake
    /// tape's.
    pub fn flush_all<A: ArticleSync, P: Pace, R: Wait>(
        &self,
        rt: &R,
        pace: &P,
        articles: &mut A,
    ) -> Result<Option<Receipt>, PostFault>
        ensures kinds { IfErr result (λ fault. IsFlushAllFault (length self.now.names) fault
            ⊎ IsFlushWorkingFault (length self.now.names) fault) }
    {
        let last = self.last.read(rt);
        let Ok(last) = articles.sync(rt, last) else {
            self.flush_working(rt, pace)?;
            return Ok(None);
        };
        let receipt = self.flush_up_to(rt, pace, last)?;
        Ok(Some(receipt))
    }

    // Puts all that pends on the disks, and then this number on the intake's tape.
    fn flush_up_to<P: Pace, R: Wait>(
        &self,
        rt: &R,
        pace: &P,
        last: SyncedLine,
    ) -> Result<Receipt, PostFault>
        ensures number { IfOk result (λ receipt. receipt.acknowledged.number ≡ last.number) }
        ensures kinds { IfErr result (IsFlushAllFault (length self.now.names)) }
    {
        let Ok(mut sealing) = Sealing::begin(self.alloc, last, self.peers()) else {
            return Err(PostFault::NoMemory);
        };
        for peer in 0..self.peers() {
            self.flush_next(rt, pace, peer, &mut sealing)?;
            pace.turn(Who::Flusher, Place::AfterFlush);
        }
        self.seal(rt, sealing)
    }

    // Flushes a station, and adds it to the sealing.
    fn flush_next<P: Pace, R: Wait>(
        &self,
        rt: &R,
        pace: &P,
        peer: usize,
        sealing: &mut Sealing,
    ) -> Result<(), PostFault>
        requires peer { (peer < length self.now.names)
            × (peer < length sealing.old.places.items) }
        ensures done { OnOk result (sealing.new.places.items
            ≡ slice_set sealing.old.places.items peer PlaceProgress.Done) }
        ensures number { sealing.new.number ≡ sealing.old.number }
        ensures kinds { IfErr result (IsPartFault peer IsRoundFault) }
    {
        let due = self.due(rt, peer, sealing)?;
        let settlement = self.settle_peer(rt, pace, peer, due)?;
        sealing.add(settlement);
        Ok(())
    }

    // Looks at a peer's front for this receipt, and returns what is due there.
    fn due<R: Wait>(&self, rt: &R, peer: usize, sealing: &mut Sealing) -> Result<u64, PostFault>
        requires { (peer < length self.now.names) × (peer < length sealing.old.places.items) }
        ensures due { IfOk result (λ due. sealing.new.places.items
            ≡ slice_set sealing.old.places.items peer (PlaceProgress.Due due)) }
        ensures number { sealing.new.number ≡ sealing.old.number }
        ensures kinds { IfErr result (λ e. e ≡ PostFault.Stranger peer) }
    {
        let desk = self.peers[peer].front.lock(rt);
        if desk.seat.place != peer {
            return Err(PostFault::Stranger { peer });
        }
        Ok(sealing.due(&desk))
    }

    // Notes on the intake tape that all lines are acknowledged up to the number that was read before the flushes.
    fn seal<R: Wait>(&self, rt: &R, sealing: Sealing) -> Result<Receipt, PostFault>
        requires { IsDoneBelow (length self.now.names) sealing.places.items }
        ensures number { IfOk result (λ receipt. receipt.acknowledged.number ≡ sealing.number) }
        ensures kinds { IfErr result (IsFlushAllFault (length self.now.names)) }
    {
        match self.intake.lock(rt).seal(self, sealing) {
            Ok(receipt) => Ok(receipt),
            Err(fault) => Err(PostFault::Intake(fault)),
        }
    }

    /// Puts on the disks what pends at each station that works, as [`Post::flush_all`] does. A broken station is
    /// skipped, and after one's fault the others are still flushed. It gives no receipt, and leaves the intake tape
    /// alone. So the answers of the other peers are kept once a tape has failed.
    ///
    /// # Errors
    /// The first that a station reports, once all were flushed: `Tape(Disk)`, after which that station is broken;
    /// `Tape(TapeFull)`; `NoMemory`; and, which no run meets, `Tape(Note)`, `Stranger`.
    pub fn flush_working<P: Pace, R: Wait>(&self, rt: &R, pace: &P) -> Result<(), PostFault>
        ensures kinds { IfErr result (IsFlushWorkingFault (length self.now.names)) }
    {
        let mut first = Ok(());
        for peer in 0..self.peers.len() {
            let flushed = self.flush_if_working(rt, pace, peer);
            pace.turn(Who::Flusher, Place::AfterFlush);
            first = first.and(flushed);
        }
        first
    }

    // Flushes a station, unless it is broken.
    fn flush_if_working<P: Pace, R: Wait>(
        &self,
        rt: &R,
        pace: &P,
        peer: usize,
    ) -> Result<(), PostFault>
        requires { peer < length self.now.names }
        ensures kinds { IfErr result (IsPartFault peer IsWorkingFlushFault) }
    {
        let count = self.peers[peer].front.lock(rt).noted();
        match self.settle_peer(rt, pace, peer, count) {
            Ok(_)
            | Err(
                PostFault::Station {
                    fault: StationFault::Broken,
                    ..
                },
            ) => Ok(()),
            Err(fault) => Err(fault),
        }
    }

    /// Rewrites each tape for which that is due: the stations', and then the intake's. A tape whose rewriting is
    /// refused without a fault of its disks stays as it is.
    ///
    /// # Errors
    /// A station's or the intake's `Disk`, after which that tape is broken, or its `Broken`. `Stranger`, which no run
    /// meets.
    pub fn rotate_all<R: Wait>(&self, rt: &R) -> Result<(), PostFault>
        ensures kinds { IfErr result (IsRotateAllFault (length self.now.names)) }
    {
        for peer in 0..self.peers.len() {
            self.rotate_one(rt, peer)?;
        }
        match self.intake.lock(rt).rotate() {
            Err(fault @ (TapeFault::Disk | TapeFault::Broken)) => Err(PostFault::Intake(fault)),
            _ => Ok(()),
        }
    }

    // Rewrites one peer's tape, if that is due, and settles at its front what was written.
    fn rotate_one<R: Wait>(&self, rt: &R, peer: usize) -> Result<(), PostFault>
        requires { peer < length self.now.names }
        ensures kinds { IfErr result (IsOfPeer peer IsDiskFault) }
    {
        match self.rotate_due(rt, peer) {
            Ok(Some(flush)) => {
                self.settle(rt, peer, &flush)?;
                Ok(())
            }
            Ok(None) => Ok(()),
            Err(fault) => {
                let fault = PostFault::of_tape(peer, fault);
                self.report_to_front(rt, peer, fault);
                if fault.has_broken() {
                    Err(fault)
                } else {
                    Ok(())
                }
            }
        }
    }

    // Rewrites one peer's tape, if that is due, under the tape's lock alone.
    fn rotate_due<R: Wait>(&self, rt: &R, peer: usize) -> Result<Option<Flush>, TapeFault>
        requires { peer < length self.now.names }
        ensures kinds { IfErr result IsRotateFault }
    {
        self.peers[peer].tape.lock(rt).rotate_if_due()
    }
}

impl<D: Disk> Intake<D> {
    // Notes that all lines are acknowledged up to the number that was read before the flushes, and makes the receipt.
    fn seal<N: Naming>(&mut self, post: &Post<D, N>, sealing: Sealing) -> Result<Receipt, TapeFault>
        requires { IsDoneBelow (length post.now.names) sealing.places.items }
        ensures mark { IfOk result (λ receipt. (receipt.acknowledged.number ≡ sealing.number)
            × ((ledger_of self.new.tape).mark
            ≡ max (ledger_of self.old.tape).mark receipt.acknowledged.number)) }
        ensures sees { (h : History) → StandsFor self.old.tape h
            → Sees sealing.number h self.old.tape self.new.tape result }
        ensures refuses { RefusesSeeing self.old.tape self.new.tape result }
    {
        self.note_seen(sealing.number())?;
        Ok(sealing.receipt(post, self))
    }

    // Notes that all lines up to this number are acknowledged, and puts that on the disks.
    fn note_seen(&mut self, number: u64) -> Result<(), TapeFault>
        ensures sealed { OnOk result (IsSealed number self.new.tape) }
        ensures mark { OnOk result ((ledger_of self.new.tape).mark
            ≡ max (ledger_of self.old.tape).mark number) }
        ensures sees { (h : History) → StandsFor self.old.tape h
            → Sees number h self.old.tape self.new.tape result }
        ensures refuses { RefusesSeeing self.old.tape self.new.tape result }
    {
        self.see(number)?;
        self.tape.flush()?;
        Ok(())
    }

    // Notes this number, if it is above the tape's mark. It calls no disk.
    fn see(&mut self, number: u64) -> Result<(), TapeFault>
        ensures takes { (h : History) → StandsFor self.old.tape h
            → Takes (seen_notes (ledger_of self.old.tape).mark number) h self.new.tape result }
        ensures mark { OnOk result ((ledger_of self.new.tape).mark
            ≡ max (ledger_of self.old.tape).mark number) }
        ensures disks { disks_of self.new.tape ≡ disks_of self.old.tape }
        ensures works { IsBroken self.old.tape ↔ IsBroken self.new.tape }
        ensures broken { OnErr result
            (IsErrOf result TapeFault.Broken ↔ IsBroken self.old.tape) }
        ensures worked { OnOk result (seen_notes (ledger_of self.old.tape).mark number ≢ []
            → IsBroken self.old.tape → ⊥) }
        ensures kinds { IfErr result (λ e. IsSealFault e × IsNoteFault e) }
    {
        if number <= self.tape.mark() {
            return Ok(());
        }
        match self.tape.note(Note::Seen { number }) {
            Ok(()) => Ok(()),
            Err((_, fault)) => Err(fault),
        }
    }

    // Rewrites the intake tape, if that is due.
    fn rotate(&mut self) -> Result<(), TapeFault>
        ensures unchanged { (IsDue self.old.tape → ⊥) → (self.new ≡ self.old) × IsOk result }
        ensures generation { IsDue self.old.tape → OnOk result
            (generation_of self.new.tape ≡ generation_of self.old.tape + 1) }
        ensures refuses { IsDue self.old.tape
            → RefusesRotation self.old.tape self.new.tape result }
        ensures acknowledges { IsDue self.old.tape → (h : History) → StandsFor self.old.tape h
            → Acknowledges h self.old.tape self.new.tape result }
        ensures quiet { OnOk result (faults_of self.new.tape ≡ faults_of self.old.tape) }
        ensures ledger { ledger_of self.new.tape ≡ ledger_of self.old.tape }
    {
        if self.tape.rotate_due() {
            self.tape.rotate()?;
        }
        Ok(())
    }
}
