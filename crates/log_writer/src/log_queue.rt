// The lines of a log that wait to be written: the state inside the writer's lock.
ghost use Rattle.std.specs.Prelude.{◌≡◌, ◌↔◌, ◌<◌, ◌≤◌, ◌-◌, ◌^◌, ◌==◌};
ghost use Rattle.std.specs.Prelude.{◌++◌, ◌∷◌, [], ℕ, IfOk, IsTrue, List, None};
ghost use Rattle.std.specs.Prelude.{length, option_to_list};
ghost use Rattle.log_writer.specs.declared.log_queue.Portion.{Portion};
ghost use Rattle.log_writer.specs.LogQueue.{StandsFor, end_of, lost, portions_of, with_line};

use circular_buffer::HeapCircularBuffer;
use std::alloc::{AllocError, Global};
use std::marker::Model;

/// The most lines that wait.
pub const QUEUE_MAX_LINES: usize = 1024;

/// What is to be written next: first, that so many lines are missing in this place, unless none is; then a line, unless
/// none waits.
#[derive(Drop)]
pub struct Portion {
    pub missing: u64,
    pub line: Option<Vec<u8>>,
}

/// The lines of a log that wait to be written, at most 1,024, and how many did not fit, each in its place.
#[derive(Drop)]
pub struct LogQueue {
    // Each has a line.
    waiting: HeapCircularBuffer<Portion>,
    // How many lines are missing behind these.
    missing: u64,
}

impl Model for LogQueue {
    ghost use Rattle.std.specs.Prelude.{◌≡◌, ◌≤◌, length};
    ghost use Rattle.log_writer.specs.LogQueue.{State};

    ghost Value = { State };

    ghost view = { λ queue. record { waiting = queue.waiting.items; missing = queue.missing } };

    ghost invariant = { λ queue. (queue.waiting.capacity ≡ 1024) × (length queue.waiting.items ≤ 1024) };
}

impl LogQueue {
    /// A queue in which nothing waits, with room for all the lines that may wait.
    ///
    /// # Errors
    /// Memory was refused.
    pub fn new(alloc: Global) -> Result<LogQueue, AllocError>
        ensures ok { IfOk result (λ queue. queue ≡ record { waiting = []; missing = 0 }) }
    {
        Ok(LogQueue {
            waiting: HeapCircularBuffer::with_capacity(alloc, QUEUE_MAX_LINES)?,
            missing: 0,
        })
    }

    /// Whether a line that is put now does not fit.
    pub fn is_full(&self) -> bool
        ensures value { result ≡ (length self.now.waiting == 1024) }
        ensures few { length self.now.waiting ≤ 1024 }
    {
        self.waiting.is_full()
    }

    /// Whether there is nothing to write.
    pub fn is_empty(&self) -> bool
        ensures { IsTrue result ↔ (portions_of self.now ≡ []) }
    {
        self.waiting.is_empty() && self.missing == 0
    }

    /// Puts a line behind those that wait. If it does not fit, it is counted as missing in this place. Allocates no
    /// memory.
    pub fn put(&mut self, line: Vec<u8>)
        ensures fits { length self.old.waiting < 1024 → self.new ≡ with_line self.old line }
        ensures full { 1024 ≤ length self.old.waiting → self.new ≡ lost self.old }
        ensures stands { (written : List Portion) (lines : List (List ℕ))
            → length lines < 2 ^ 64 - 1 → StandsFor self.old written lines
            → StandsFor self.new written (lines ++ line.items ∷ []) }
    {
        let portion = Portion {
            missing: self.missing,
            line: Some(line),
        };
        match self.waiting.try_push_back(portion) {
            Ok(()) => self.missing = 0,
            Err(_) => self.lose(),
        }
    }

    /// Counts a line as missing in this place, behind those that wait.
    pub fn lose(&mut self)
        ensures new { self.new ≡ lost self.old }
        ensures stands { (written : List Portion) (lines : List (List ℕ)) (line : List ℕ)
            → length lines < 2 ^ 64 - 1 → StandsFor self.old written lines
            → StandsFor self.new written (lines ++ line ∷ []) }
    {
        self.missing = self.missing.saturating_add(1);
    }

    /// Takes out what is to be written next: the oldest line that waits, with how many are missing before it; or else
    /// how many are missing at the end. `None` if there is nothing.
    pub fn take(&mut self) -> Option<Portion>
        ensures portions { portions_of self.old ≡ option_to_list result ++ portions_of self.new }
        ensures none { result ≡ None → portions_of self.old ≡ [] }
        ensures stands { (written : List Portion) (lines : List (List ℕ))
            → StandsFor self.old written lines
            → StandsFor self.new (written ++ option_to_list result) lines }
    {
        match self.waiting.pop_front() {
            Some(portion) => Some(portion),
            None => self.take_missing(),
        }
    }

    // Takes out how many are missing at the end, after the last line.
    fn take_missing(&mut self) -> Option<Portion>
        ensures { (self.old.waiting ≡ []) → (self.new.waiting ≡ [])
            × ((end_of self.old.missing ≡ option_to_list result ++ end_of self.new.missing)
            × (result ≡ None → end_of self.old.missing ≡ [])) }
    {
        if self.missing == 0 {
            return None;
        }
        let missing = self.missing;
        self.missing = 0;
        Some(Portion {
            missing,
            line: None,
        })
    }
}
