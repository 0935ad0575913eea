// A disk in memory. It keeps each event, and so each moment that it had.
ghost use Rattle.std.specs.Prelude.{◌≡◌, ◌+◌, ◌-◌, ◌^◌, ◌≤◌, ℕ, List, [], ◌∷◌};
ghost use Rattle.std.specs.Prelude.{◌++◌, length, min, false, take, vec_capacity, vec_len, IfOk, OnOk, OnErr};
ghost use Rattle.std.specs.List.{All, AllWithin};
ghost use Rattle.disk_model.specs.Disk.{content, Image, Event};
ghost use Rattle.disk_model.specs.Disk.Event.{Wrote, WasCut, Synced, Made};
ghost use Rattle.disk_model.specs.Choice.{chosen_image, pending};
ghost use Rattle.disk_model.specs.Memory.{event_of, logged, log_of, is_settling, IsSettled};

use crate::choice::Choice;
use crate::disk_event::DiskEvent;
use crate::octets::overwrite;
use crate::{Disk, DiskFault, NoMemory};
use std::alloc::Global;

/// A disk in memory. It is honest, and it keeps each event, so that any of its images can be made.
#[derive(Drop)]
pub struct MemDisk {
    alloc: Global,
    octets: Vec<u8>,
    history: Vec<DiskEvent>,
    faults: u64,
    ghost content_is: { octets.items ≡ content (log_of history.items) },
}

#[tactic(auto, using(crate::proofs::Kept::logged_push))]
fn keep(history: &mut Vec<DiskEvent>, event: DiskEvent) -> Result<(), NoMemory>
    ensures ok { OnOk result
        (log_of history.new.items ≡ event_of event ∷ log_of history.old.items) }
    ensures unchanged { OnErr result (history.new.items ≡ history.old.items) }
    ensures full { OnErr result (vec_capacity history.old ≤ vec_len history.old) }
{
    history.push(event)?;
    Ok(())
}

// How many events there are up to the last that left a single image; 0 if there is none.
fn settled_count(history: &[DiskEvent]) -> usize
    ensures within { result ≤ length history.now }
    ensures settled { IsSettled (log_of (take result history.now)) }
    ensures rest { AllWithin (λ event. is_settling event ≡ false) history.now result
        (length history.now) }
{
    let mut count = 0;
    for (i, event) in history.iter().enumerate() {
        if event.is_settling() {
            count = i + 1;
        }
    }
    count
}

fn content_after(alloc: Global, history: &[DiskEvent]) -> Result<Vec<u8>, NoMemory>
    ensures { IfOk result (λ octets. octets.items ≡ content (log_of history.now)) }
{
    let mut octets = Vec::new(alloc);
    for event in history {
        event.redo(&mut octets)?;
    }
    Ok(octets)
}

// Does to an image what the choice has for each of these operations, all of which came after the last sync.
fn leave_each(image: &mut Vec<u8>, waiting: &[DiskEvent], choice: Choice) -> Result<(), NoMemory>
    requires { All (λ event. is_settling event ≡ false) waiting.now }
    ensures { OnOk result ((log : List Event) → pending log ≡ 0
        → image.old.items ≡ chosen_image choice log
        → image.new.items ≡ chosen_image choice (logged log waiting.now)) }
{
    for (number, event) in waiting.iter().enumerate() {
        event.leave(image, choice, number)?;
    }
    Ok(())
}

// The image that this choice names after these events.
fn image_after(alloc: Global, history: &[DiskEvent], choice: Choice) -> Result<Vec<u8>, NoMemory>
    ensures { IfOk result (λ image. image.items ≡ chosen_image choice (log_of history.now)) }
{
    let (settled, waiting) = history.split_at(settled_count(history));
    let mut image = content_after(alloc, settled)?;
    leave_each(&mut image, waiting, choice)?;
    Ok(image)
}

impl Disk for MemDisk {
    ghost use Rattle.std.specs.Prelude.{IsOk, slice_range};
    ghost use Rattle.disk_model.specs.Disk.{Writes, Cuts, Syncs, CountsFaults};
    ghost use Rattle.disk_model.specs.InMemory.{events, held, faults_in, IsRefusedWhole};
    ghost use Rattle.disk_model.specs.MemoryLaws.{content_among_images};

    ghost honest = { λ _. Unit {0} };

    ghost log = { λ m. log_of m.history.items };

    ghost size = { λ m. length m.octets.items };

    ghost faults_of = { λ m. m.faults };

    ghost content_is_image = { λ m _. content_among_images m.history.items };

    fn len(&self) -> u64 {
        self.octets.len() as u64
    }

    /// Never fails.
    fn read_at(&mut self, at: u64, into: &mut [u8]) -> Result<(), DiskFault>
        requires { at + length into.old ≤ length (held self.old) }
        ensures read { OnOk result
            (into.new ≡ slice_range (content (events self.old)) at (at + length into.old)) }
        ensures log { events self.new ≡ events self.old }
        ensures cause { CountsFaults (faults_in self.old) (faults_in self.new) result }
        ensures quiet { OnOk result (faults_in self.new ≡ faults_in self.old) }
        ensures succeeds { IsOk result }
        ensures unchanged { self.new ≡ self.old }
    {
        let from = at as usize;
        into.copy_from_slice(&self.octets[from..from + into.len()]);
        Ok(())
    }

    /// Fails if memory is refused.
    fn write_at(&mut self, at: u64, from: &[u8]) -> Result<(), DiskFault>
        requires { at ≤ length (held self.old) }
        ensures log { Writes at from.now (events self.old) result (events self.new) }
        ensures cause { CountsFaults (faults_in self.old) (faults_in self.new) result }
        ensures quiet { OnOk result (faults_in self.new ≡ faults_in self.old) }
        ensures unchanged { IsRefusedWhole self.old self.new result }
    {
        match self.try_write(at, from) {
            Ok(()) => Ok(()),
            Err(_) => Err(self.fault()),
        }
    }

    /// Fails if memory is refused.
    fn cut(&mut self, len: u64) -> Result<(), DiskFault>
        requires { len ≤ length (held self.old) }
        ensures log { Cuts len (events self.old) result (events self.new) }
        ensures cause { CountsFaults (faults_in self.old) (faults_in self.new) result }
        ensures quiet { OnOk result (faults_in self.new ≡ faults_in self.old) }
        ensures unchanged { IsRefusedWhole self.old self.new result }
    {
        match self.try_cut(len) {
            Ok(()) => Ok(()),
            Err(_) => Err(self.fault()),
        }
    }

    /// Fails if memory is refused.
    fn sync(&mut self) -> Result<(), DiskFault>
        ensures log { Syncs (events self.old) result (events self.new) }
        ensures cause { CountsFaults (faults_in self.old) (faults_in self.new) result }
        ensures quiet { OnOk result (faults_in self.new ≡ faults_in self.old) }
        ensures unchanged { IsRefusedWhole self.old self.new result }
    {
        match keep(&mut self.history, DiskEvent::Sync) {
            Ok(()) => Ok(()),
            Err(_) => Err(self.fault()),
        }
    }

    fn faults(&self) -> u64 {
        self.faults
    }
}

impl MemDisk {
    /// An empty disk, to which nothing has happened.
    pub fn new(alloc: Global) -> Self
        ensures log { ⟦<MemDisk as Disk>⟧.log result ≡ [] }
        ensures faults { ⟦<MemDisk as Disk>⟧.faults_of result ≡ 0 }
    {
        MemDisk {
            alloc,
            octets: Vec::new(alloc),
            history: Vec::new(alloc),
            faults: 0,
        }
    }

    /// A disk with these octets, which are its only image. Nothing else has happened to it.
    ///
    /// # Errors
    /// `NoMemory` if memory for the new disk was refused.
    pub fn holding(alloc: Global, octets: &[u8]) -> Result<Self, NoMemory>
        ensures log { IfOk result (λ disk. ⟦<MemDisk as Disk>⟧.log disk ≡ Made octets.now ∷ []) }
        ensures faults { IfOk result (λ disk. ⟦<MemDisk as Disk>⟧.faults_of disk ≡ 0) }
    {
        let first = DiskEvent::Began(Vec::from_slice(alloc, octets)?);
        let mut disk = MemDisk::new(alloc);
        keep(&mut disk.history, first)?;
        disk.octets = Vec::from_slice(alloc, octets)?;
        Ok(disk)
    }

    /// A new disk that holds exactly what a stop at this moment may leave, by this choice. This one stays as it is.
    ///
    /// It costs as much as all that was ever written to this disk.
    ///
    /// # Errors
    /// `NoMemory` if memory for the new disk was refused.
    #[tactic(auto, using(crate::proofs::Chosen::chosen_is_image))]
    pub fn image(&self, choice: Choice) -> Result<MemDisk, NoMemory>
        ensures chosen { IfOk result
            (λ left. ⟦<MemDisk as Disk>⟧.log left
            ≡ Made (chosen_image choice (⟦<MemDisk as Disk>⟧.log self.now)) ∷ []) }
        ensures image { Image (⟦<MemDisk as Disk>⟧.log self.now)
            (chosen_image choice (⟦<MemDisk as Disk>⟧.log self.now)) }
        ensures faults { IfOk result (λ left. ⟦<MemDisk as Disk>⟧.faults_of left ≡ 0) }
    {
        let octets = image_after(self.alloc, &self.history, choice)?;
        MemDisk::holding(self.alloc, &octets)
    }

    fn fault(&mut self) -> DiskFault
        ensures faults { self.new.faults ≡ min (self.old.faults + 1) (2 ^ 64 - 1) }
        ensures later { self.old.faults ≤ self.new.faults }
        ensures history { self.new.history ≡ self.old.history }
    {
        self.faults = self.faults.saturating_add(1);
        DiskFault
    }

    // All that can be refused comes before the first change.
    fn try_write(&mut self, at: u64, from: &[u8]) -> Result<(), NoMemory>
        requires { at ≤ length self.old.octets.items }
        ensures ok { OnOk result
            (log_of self.new.history.items ≡ Wrote at from.now ∷ log_of self.old.history.items) }
        ensures unchanged { OnErr result
            (log_of self.new.history.items ≡ log_of self.old.history.items) }
        ensures faults { self.new.faults ≡ self.old.faults }
    {
        let octets = Vec::from_slice(self.alloc, from)?;
        self.history.reserve(1)?;
        overwrite(&mut self.octets, at as usize, from)?;
        keep(&mut self.history, DiskEvent::Write { at, octets })?;
        Ok(())
    }

    fn try_cut(&mut self, len: u64) -> Result<(), NoMemory>
        requires { len ≤ length self.old.octets.items }
        ensures ok { OnOk result
            (log_of self.new.history.items ≡ WasCut len ∷ log_of self.old.history.items) }
        ensures unchanged { OnErr result
            (log_of self.new.history.items ≡ log_of self.old.history.items) }
        ensures faults { self.new.faults ≡ self.old.faults }
    {
        keep(&mut self.history, DiskEvent::Cut { len })?;
        self.octets.truncate(len as usize);
        Ok(())
    }
}
