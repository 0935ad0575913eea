// A stop that waits for a call of a disk, and the disks that it stops.
ghost use Rattle.std.specs.Prelude.{◌≡◌, ◌+◌, ◌-◌, ◌^◌, ◌≤◌, length, min, ◌∷◌, [], IfOk};
ghost use Rattle.std.specs.Prelude.{OnOk};

use disk_model::{Choice, Disk, DiskFault, MemDisk};
use std::alloc::{AllocError, Global};
use std::cell::Cell;
use std::rc::Rc;

/// A stop that waits to be met.
#[derive(Clone, Copy, Debug, PartialEq, Eq)]
pub struct Stop {
    /// The rank of the tape at whose disks it comes: a peer's rank; the intake's comes after all peers'.
    pub rank: usize,
    /// How many counted calls of that tape's disks there are up to and including the one that it stops.
    pub calls: u64,
    /// What it leaves of each disk.
    pub choice: Choice,
}

/// Whether a stop waits. All disks of a drill share it, so there is one stop at most, and it stops them all.
#[derive(Clone, Copy, Debug, PartialEq, Eq)]
pub enum Trigger {
    /// No stop is armed.
    Idle,
    /// This one is armed.
    Armed(Stop),
    /// A stop was met, and leaves this of each disk. No call of any disk completes.
    Met(Choice),
}

// What becomes of a counted call.
#[derive(Clone, Copy, Debug, PartialEq, Eq)]
enum Fate {
    // It completes.
    Completes,
    // It is the call that the stop comes at.
    Stops(Choice),
    // A stop was met before it.
    Fails,
}

impl Trigger {
    ghost use Rattle.world_core.specs.Trigger.{fate_of, counted, has_met, settled};

    // What becomes of the next call on a disk of this rank.
    fn fate(self, rank: usize) -> Fate
        ensures { result ≡ fate_of self rank }
    {
        match self {
            Trigger::Armed(stop) if stop.rank == rank && stop.calls <= 1 => {
                Fate::Stops(stop.choice)
            }
            Trigger::Idle | Trigger::Armed(_) => Fate::Completes,
            Trigger::Met(_) => Fate::Fails,
        }
    }

    // What waits after a call on a disk of this rank that completes.
    fn count(self, rank: usize) -> Trigger
        ensures { result ≡ counted self rank }
    {
        match self {
            Trigger::Armed(stop) if stop.rank == rank => Trigger::Armed(Stop {
                rank,
                calls: stop.calls.saturating_sub(1),
                choice: stop.choice,
            }),
            other => other,
        }
    }

    // What waits after the next call on a disk of this rank, and what becomes of that call.
    fn step(self, rank: usize) -> (Trigger, Fate)
        ensures { result ≡ (counted self rank, fate_of self rank) }
    {
        (self.count(rank), self.fate(rank))
    }

    // Whether a stop was met.
    fn has_met(self) -> bool
        ensures { result ≡ has_met self }
    {
        match self {
            Trigger::Met(_) => true,
            Trigger::Idle | Trigger::Armed(_) => false,
        }
    }

    /// What waits after a step, and what a stop met in it leaves: once met, a stop is no longer armed.
    pub fn settle(self) -> (Trigger, Option<Choice>)
        ensures { result ≡ settled self }
    {
        match self {
            Trigger::Met(choice) => (Trigger::Idle, Some(choice)),
            other => (other, None),
        }
    }
}

/// A disk in memory whose calls of `write_at`, `cut` and `sync` are counted while a stop is armed at its tape. The call
/// that is stopped does not complete: a write or a cut reaches the disk beneath, and no sync follows it; a sync does
/// not reach it. That call and each later one, also a read, fails.
#[derive(Drop)]
pub struct StopDisk {
    disk: MemDisk,
    rank: usize,
    trigger: Rc<Cell<Trigger>>,
    // How many faults it reported by itself.
    faults: u64,
}

impl StopDisk {
    ghost use Rattle.std.specs.Prelude.{ℕ};
    ghost use Rattle.disk_model.specs.declared.choice.Choice.{Choice};
    ghost use Rattle.disk_model.specs.Disk.{Writes, Cuts, Syncs, CountsFaults, Image};
    ghost use Rattle.disk_model.specs.Choice.{chosen_image};
    ghost use Rattle.disk_model.specs.Disk.Event.{Made, Wrote, WasCut};
    ghost use Rattle.disk_model.specs.InMemory.{held};
    ghost use Rattle.world_core.specs.StopDisk.{beneath, happened, own_faults, all_faults, rank_at};
    ghost use Rattle.world_core.specs.StopDisk.{PassesOn, Reaches, RefusesCall};

    /// A disk of the tape at this rank.
    pub fn new(disk: MemDisk, rank: usize, trigger: Rc<Cell<Trigger>>) -> Self
        ensures disk { beneath result ≡ disk }
        ensures faults { own_faults result ≡ 0 }
        ensures rank { rank_at result ≡ rank }
    {
        StopDisk {
            disk,
            rank,
            trigger,
            faults: 0,
        }
    }

    /// A disk of the tape at this rank that holds these octets. It has reported no fault.
    ///
    /// # Errors
    /// Memory was refused.
    pub fn holding(
        alloc: Global,
        octets: &[u8],
        rank: usize,
        trigger: &Rc<Cell<Trigger>>,
    ) -> Result<StopDisk, AllocError>
        ensures log { IfOk result (λ disk. happened disk ≡ Made octets.now ∷ []) }
        ensures faults { IfOk result (λ disk. all_faults disk ≡ 0) }
        ensures rank { IfOk result (λ disk. rank_at disk ≡ rank) }
    {
        let disk = MemDisk::holding(alloc, octets)?;
        Ok(StopDisk::new(disk, rank, trigger.clone()?))
    }

    /// A new disk of the same tape, with what a stop by this choice leaves of this one. It has reported no fault.
    ///
    /// # Errors
    /// Memory was refused.
    pub fn left(&self, choice: Choice) -> Result<StopDisk, AllocError>
        ensures log { IfOk result
            (λ left. happened left ≡ Made (chosen_image choice (happened self.now)) ∷ []) }
        ensures image { Image (happened self.now) (chosen_image choice (happened self.now)) }
        ensures faults { IfOk result (λ left. all_faults left ≡ 0) }
        ensures rank { IfOk result (λ left. rank_at left ≡ rank_at self.now) }
    {
        let disk = self.disk.image(choice)?;
        let trigger = self.trigger.clone()?;
        Ok(StopDisk::new(disk, self.rank, trigger))
    }

    // Counts a call, and returns what becomes of it. No contract sees into the cell, so `step` decides all, and this
    // function only reads and writes the cell.
    fn count(&self) -> Fate {
        let (waits, fate) = self.trigger.get().step(self.rank);
        self.trigger.set(waits);
        fate
    }

    // Stops all disks.
    fn stop(&mut self, choice: Choice) -> DiskFault
        ensures disk { beneath self.new ≡ beneath self.old }
        ensures faults { own_faults self.new ≡ min (own_faults self.old + 1) (2 ^ 64 - 1) }
    {
        self.trigger.set(Trigger::Met(choice));
        self.refuse()
    }

    // Fails by itself.
    fn refuse(&mut self) -> DiskFault
        ensures disk { beneath self.new ≡ beneath self.old }
        ensures faults { own_faults self.new ≡ min (own_faults self.old + 1) (2 ^ 64 - 1) }
    {
        self.faults = self.faults.saturating_add(1);
        DiskFault
    }

    fn write_as(&mut self, fate: Fate, at: u64, from: &[u8]) -> Result<(), DiskFault>
        requires { at ≤ length (held (beneath self.old)) }
        ensures log { Writes at from.now (happened self.old) result (happened self.new) }
        ensures cause { CountsFaults (all_faults self.old) (all_faults self.new) result }
        ensures quiet { OnOk result (all_faults self.new ≡ all_faults self.old) }
        ensures completes { fate ≡ Fate.Completes → PassesOn self.old self.new result }
        ensures stops { (choice : Choice) → fate ≡ Fate.Stops choice
            → Reaches (Wrote at from.now) self.old self.new result }
        ensures fails { fate ≡ Fate.Fails → RefusesCall self.old self.new result }
    {
        match fate {
            Fate::Completes => self.disk.write_at(at, from),
            Fate::Stops(choice) => {
                self.disk.write_at(at, from)?;
                Err(self.stop(choice))
            }
            Fate::Fails => Err(self.refuse()),
        }
    }

    fn cut_as(&mut self, fate: Fate, len: u64) -> Result<(), DiskFault>
        requires { len ≤ length (held (beneath self.old)) }
        ensures log { Cuts len (happened self.old) result (happened self.new) }
        ensures cause { CountsFaults (all_faults self.old) (all_faults self.new) result }
        ensures quiet { OnOk result (all_faults self.new ≡ all_faults self.old) }
        ensures completes { fate ≡ Fate.Completes → PassesOn self.old self.new result }
        ensures stops { (choice : Choice) → fate ≡ Fate.Stops choice
            → Reaches (WasCut len) self.old self.new result }
        ensures fails { fate ≡ Fate.Fails → RefusesCall self.old self.new result }
    {
        match fate {
            Fate::Completes => self.disk.cut(len),
            Fate::Stops(choice) => {
                self.disk.cut(len)?;
                Err(self.stop(choice))
            }
            Fate::Fails => Err(self.refuse()),
        }
    }

    fn sync_as(&mut self, fate: Fate) -> Result<(), DiskFault>
        ensures log { Syncs (happened self.old) result (happened self.new) }
        ensures cause { CountsFaults (all_faults self.old) (all_faults self.new) result }
        ensures quiet { OnOk result (all_faults self.new ≡ all_faults self.old) }
        ensures completes { fate ≡ Fate.Completes → PassesOn self.old self.new result }
        ensures stops { (choice : Choice) → fate ≡ Fate.Stops choice
            → RefusesCall self.old self.new result }
        ensures fails { fate ≡ Fate.Fails → RefusesCall self.old self.new result }
    {
        match fate {
            Fate::Completes => self.disk.sync(),
            Fate::Stops(choice) => Err(self.stop(choice)),
            Fate::Fails => Err(self.refuse()),
        }
    }

    fn has_stopped(&self) -> bool {
        self.trigger.get().has_met()
    }
}

/// Honest: what has happened to it is what has happened to the disk beneath.
impl Disk for StopDisk {
    ghost use Rattle.disk_model.specs.InMemory.{events, held, faults_in};
    ghost use Rattle.disk_model.specs.MemoryLaws.{content_among_images};

    ghost honest = { λ _. Unit {0} };

    ghost log = { λ d. events d.disk };

    ghost size = { λ d. length (held d.disk) };

    ghost faults_of = { λ d. min (d.faults + faults_in d.disk) (2 ^ 64 - 1) };

    ghost content_is_image = { λ d _. content_among_images d.disk.history.items };

    fn len(&self) -> u64 {
        self.disk.len()
    }

    /// Not counted. Fails once all has stopped.
    fn read_at(&mut self, at: u64, into: &mut [u8]) -> Result<(), DiskFault> {
        if self.has_stopped() {
            return Err(self.refuse());
        }
        self.disk.read_at(at, into)
    }

    fn write_at(&mut self, at: u64, from: &[u8]) -> Result<(), DiskFault> {
        let fate = self.count();
        self.write_as(fate, at, from)
    }

    fn cut(&mut self, len: u64) -> Result<(), DiskFault> {
        let fate = self.count();
        self.cut_as(fate, len)
    }

    fn sync(&mut self) -> Result<(), DiskFault> {
        let fate = self.count();
        self.sync_as(fate)
    }

    fn faults(&self) -> u64 {
        self.faults.saturating_add(self.disk.faults())
    }
}
