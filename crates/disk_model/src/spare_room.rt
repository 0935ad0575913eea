// Room on the file system of the tapes that is kept back for when it is full.
use std::alloc::{AllocError, Global};
use std::fs::File;
use std::io::{self, ErrorKind};
use std::os::unix::fs::FileExt;
use std::sync::atomic::{AtomicU64, Ordering};
use std::sync::{Arc, OnceLock};

// How many octets are kept back.
const OCTETS: u64 = 4_194_304;

// How many are written at a time.
const BLOCK_OCTETS: usize = 65_536;

/// Room that is kept back on a file system: a file of 4 MiB of written and synced octets, which all files of a
/// directory share. If one of them meets a full file system, the room is given up: the file is cut to nothing.
#[derive(Drop)]
pub struct SpareRoom {
    shared: Arc<Shared>,
}

#[derive(Drop)]
struct Shared {
    // The file, once there is one.
    file: OnceLock<File>,
    // How often the room was given up, and how often it had been when it was last made. They differ as long as there
    // is none.
    given_up: AtomicU64,
    made: AtomicU64,
}

impl SpareRoom {
    /// No room yet.
    ///
    /// # Errors
    /// `AllocError` if memory was refused.
    pub(crate) fn new(alloc: Global) -> Result<Self, AllocError> {
        Ok(SpareRoom {
            shared: Arc::new(
                alloc,
                Shared {
                    file: OnceLock::new(),
                    given_up: AtomicU64::new(0),
                    made: AtomicU64::new(0),
                },
            )?,
        })
    }

    /// The same room, for one more file.
    ///
    /// # Errors
    /// `AllocError` if memory was refused, or too many share it.
    pub(crate) fn share(&self) -> Result<Self, AllocError> {
        Ok(SpareRoom {
            shared: Arc::try_clone(&self.shared)?,
        })
    }

    /// Keeps room back in this file, which is open and empty.
    ///
    /// # Errors
    /// The system's; memory was refused.
    pub(crate) fn keep_in(&self, alloc: Global, file: File) -> io::Result<()> {
        let _ = self.shared.file.try_set(file);
        self.make(alloc)
    }

    /// Gives the room up, so that its octets are free for others. Without room nothing changes.
    pub(crate) fn give_up(&self) {
        if let Some(file) = self.shared.file.get()
            && !self.is_given_up()
        {
            self.shared.given_up.fetch_add(1, Ordering::SeqCst);
            // The file system may hand freed octets out only after that is durable.
            let _ = file.set_len(0);
            let _ = file.sync_all();
        }
    }

    /// Whether it was given up and not made again.
    pub fn is_given_up(&self) -> bool {
        self.shared.given_up.load(Ordering::SeqCst) != self.shared.made.load(Ordering::SeqCst)
    }

    /// Makes the room again, if it was given up.
    ///
    /// # Errors
    /// The system's, as long as the file system is full; memory was refused. Nothing is kept back then.
    pub fn make_again(&self, alloc: Global) -> io::Result<()> {
        if self.is_given_up() {
            return self.make(alloc);
        }
        Ok(())
    }

    // Writes and syncs the octets. If a file needs the room meanwhile, there is none.
    fn make(&self, alloc: Global) -> io::Result<()> {
        let Some(file) = self.shared.file.get() else {
            return Ok(());
        };
        let given_up = self.shared.given_up.load(Ordering::SeqCst);
        let filled = fill(alloc, file);
        let is_wanted = self.shared.given_up.load(Ordering::SeqCst) != given_up;
        if filled.is_err() || is_wanted {
            let _ = file.set_len(0);
            let _ = file.sync_all();
        }
        filled?;
        if is_wanted {
            return Err(io::Error::from(ErrorKind::StorageFull));
        }
        self.shared.made.store(given_up, Ordering::SeqCst);
        Ok(())
    }
}

// Writes the octets to this file and syncs them.
fn fill(alloc: Global, file: &File) -> io::Result<()> {
    let mut block = Vec::new(alloc);
    block.resize(BLOCK_OCTETS, b'~')?;
    let mut at = 0;
    for _ in 0..OCTETS {
        if at >= OCTETS {
            break;
        }
        let left = (OCTETS - at).min(BLOCK_OCTETS as u64) as usize;
        match file.write_at(&block[..left], at) {
            Ok(0) => return Err(io::Error::from(ErrorKind::WriteZero)),
            Ok(count) => at += count as u64,
            Err(error) if error.kind() == ErrorKind::Interrupted => {}
            Err(error) => return Err(error),
        }
    }
    file.sync_all()
}

/// Whether this error says that the file system, or what its owner may use of it, is full.
pub(crate) fn is_full(error: &io::Error) -> bool {
    matches!(
        error.kind(),
        ErrorKind::StorageFull | ErrorKind::QuotaExceeded
    )
}
