// The side of whoever asks: a request is made, and its answer awaited.
use crate::answer::{Answer, AnswerStatus, read_answer};
use crate::faults::FileFault;
use crate::files::{Allowed, Fetched, fetch, put_file, remove_if_there};
use crate::names::{answer_path, ask_path, new_path};
use crate::request::Request;
use crate::writing::write_request;
use std::alloc::AllocError;
use std::fs::{self, File};
use std::io::{self, ErrorKind};
use std::os::unix::fs::MetadataExt;
use std::rt::{Clock, Files};
use std::thread;
use std::time::{Duration, Instant};
use thiserror::Error;

/// For how long an administrator waits for an answer, in seconds. A request that is older is not taken.
pub const ASK_SECONDS: u64 = 10;

// How often it is looked for an answer.
const LOOK_MS: u64 = 50;

const LOOKS_A_SECOND: u64 = 1_000 / LOOK_MS;

/// Why there is no answer.
#[derive(Debug, Drop, Error)]
pub enum AskFault {
    /// There is no directory at this path.
    #[error("{path}: no such directory: nothing runs here")]
    NoDirectory { path: String },
    /// The directory at this path is another user's, whose requests alone are taken. Nothing was done.
    #[error("{path}: another user owns it: ask as that user")]
    OtherUser { path: String },
    /// Nobody took the request at this path in time. It is taken back, and nothing was done.
    #[error("{path}: nobody took it, so nothing was done: see whether innfeed runs")]
    NobodyAnswered { path: String },
    /// What came at this path is no answer.
    #[error("{path}: this is no answer: see in the log what was done")]
    NoAnswer { path: String },
    /// The system refused something.
    #[error("{0}")]
    File(FileFault),
}

impl From<FileFault> for AskFault {
    fn from(fault: FileFault) -> Self {
        AskFault::File(fault)
    }
}

impl From<AllocError> for AskFault {
    fn from(_: AllocError) -> Self {
        AskFault::File(FileFault::NoMemory)
    }
}

/// Asks the run that works on the directory at this path, and waits for its answer, so many seconds: [`ASK_SECONDS`],
/// or fewer. `pid` is the id of this process. What the run has not taken by then is taken back: whoever removes the
/// request has it. If the run has it, and there is no answer yet, the status is `Begun`, and there is no text.
///
/// Files of an earlier process with this id are removed first. Afterwards none of this one is left, except what the run
/// makes later if it has begun.
///
/// # Errors
/// [`AskFault`]. Nothing was done after `NoDirectory`, `OtherUser` and `NobodyAnswered`. After any other the request is
/// removed if the run has not taken it.
pub fn ask<R: Clock + AllocGlobal + Files<File = File>>(
    rt: &R,
    directory: &str,
    pid: u32,
    request: &Request,
    seconds: u64,
) -> Result<Answer, AskFault> {
    let owner = owner_of(rt, directory)?;
    let asker = Asker::new(rt, directory, pid, owner)?;
    asker.remove_stale()?;
    let asked = asker.ask(request, seconds);
    if asked.is_err() {
        asker.leave_nothing();
    }
    asked
}

// The owner of the directory at this path.
fn owner_of<R: AllocGlobal + Files>(rt: &R, directory: &str) -> Result<u32, AskFault> {
    match fs::metadata(rt, directory) {
        Ok(there) if there.is_dir() => Ok(there.uid()),
        Err(reason) if reason.kind() != ErrorKind::NotFound => {
            Err(AskFault::File(FileFault::of(rt.alloc(), directory, reason)))
        }
        _ => Err(AskFault::NoDirectory {
            path: String::from_str(rt.alloc(), directory)?,
        }),
    }
}

// The files by which one process asks once.
#[derive(Drop)]
struct Asker<'a, R> {
    rt: &'a R,
    directory: String,
    // The owner of the directory.
    owner: u32,
    ask: String,
    answer: String,
}

impl<'a, R: Clock + AllocGlobal + Files<File = File>> Asker<'a, R> {
    fn new(rt: &'a R, directory: &str, pid: u32, owner: u32) -> Result<Self, AllocError> {
        let alloc = rt.alloc();
        Ok(Asker {
            rt,
            directory: String::from_str(alloc, directory)?,
            owner,
            ask: ask_path(alloc, directory, pid)?,
            answer: answer_path(alloc, directory, pid)?,
        })
    }

    // Removes what an earlier process with the same id left.
    fn remove_stale(&self) -> Result<(), FileFault> {
        let beside = new_path(self.rt.alloc(), self.answer.as_str())?;
        remove_if_there(self.rt, self.ask.as_str())?;
        remove_if_there(self.rt, beside.as_str())?;
        remove_if_there(self.rt, self.answer.as_str())?;
        Ok(())
    }

    fn ask(&self, request: &Request, seconds: u64) -> Result<Answer, AskFault> {
        self.put(request)?;
        if let Some(answer) = self.await_answer(seconds)? {
            return Ok(answer);
        }
        if remove_if_there(self.rt, self.ask.as_str())? {
            return Err(AskFault::NobodyAnswered {
                path: self.ask.clone()?,
            });
        }
        match self.fetch()? {
            Some(answer) => Ok(answer),
            None => Ok(Answer {
                status: AnswerStatus::Begun,
                text: Vec::new(self.rt.alloc()),
            }),
        }
    }

    // Makes the request.
    fn put(&self, request: &Request) -> Result<(), AskFault> {
        let mut text = Vec::new(self.rt.alloc());
        write_request(request, &mut text)?;
        put_file(self.rt, self.ask.as_str(), &text)?;
        match fs::symlink_metadata(self.rt, self.ask.as_str()) {
            Ok(there) if there.uid() != self.owner => Err(AskFault::OtherUser {
                path: self.directory.clone()?,
            }),
            // If it is gone, it was taken.
            _ => Ok(()),
        }
    }

    // The answer, if it comes within so many seconds.
    fn await_answer(&self, seconds: u64) -> Result<Option<Answer>, AskFault> {
        let began = Instant::now(self.rt);
        for _ in 0..seconds.saturating_mul(LOOKS_A_SECOND) {
            if let Some(answer) = self.fetch()? {
                return Ok(Some(answer));
            }
            if has_passed(self.rt, &began, seconds) {
                break;
            }
            thread::sleep(self.rt, Duration::from_millis(LOOK_MS));
        }
        self.fetch()
    }

    // Reads and removes the answer, if it is there.
    fn fetch(&self) -> Result<Option<Answer>, AskFault> {
        let allowed = Allowed {
            owner: self.owner,
            seconds: u64::MAX,
            octets: u64::MAX,
        };
        match fetch(self.rt, self.answer.as_str(), &allowed)? {
            Fetched::Octets(octets) => match read_answer(self.rt.alloc(), &octets)? {
                Some(answer) => Ok(Some(answer)),
                None => self.no_answer(),
            },
            Fetched::Gone => Ok(None),
            Fetched::Passed(_) => self.no_answer(),
        }
    }

    fn no_answer(&self) -> Result<Option<Answer>, AskFault> {
        Err(AskFault::NoAnswer {
            path: self.answer.clone()?,
        })
    }

    // Removes what is left after a fault, as far as that can be done.
    fn leave_nothing(&self) {
        let _ = fs::remove_file(self.rt, self.ask.as_str());
        let _ = fs::remove_file(self.rt, self.answer.as_str());
    }
}

// Whether so many seconds have passed since then; not if the clock cannot be read.
fn has_passed<R: Clock>(rt: &R, began: &io::Result<Instant>, seconds: u64) -> bool {
    match began {
        Ok(began) => match began.elapsed(rt) {
            Ok(passed) => passed.as_secs() >= seconds,
            Err(_) => false,
        },
        Err(_) => false,
    }
}
