// The side of the run: requests are taken, and answered.
ghost use Rattle.std.specs.Prelude.{◌≡◌, IfOk, IfSome};
ghost use Rattle.requests.specs.Answers.{answer_text};
ghost use Rattle.requests.specs.Taken.{IsOfProcess};

use crate::answer::{AnswerStatus, write_answer};
use crate::asker::ASK_SECONDS;
use crate::faults::{FileFault, RequestFault};
use crate::files::{Allowed, Fetched, PassedReason, fetch, put_file};
use crate::names::{answer_path, ask_path, read_ask_name};
use crate::reading::{REQUEST_MAX_OCTETS, read_request};
use crate::request::Request;
use std::alloc::{AllocError, Global};
use std::fs::{self, File};
use std::io::{self, ErrorKind};
use std::os::unix::fs::MetadataExt;
use std::rt::{Clock, Files};
use thiserror::Error;

/// A file with the name of a request that is not taken. It stays where it is.
#[derive(Debug, Drop, Error)]
pub enum PassedOver {
    /// The file at this path is none to be taken.
    #[error("{path}: {reason}")]
    Passed { path: String, reason: PassedReason },
    /// It could not be looked at, read or removed.
    #[error("{0}")]
    Failed(FileFault),
}

/// A request that was taken. It is the only value with which its answer can be written, and that can be done once.
#[derive(Debug, Drop)]
pub struct Taken {
    /// The id of the process that asks.
    pub pid: u32,
    /// What it asks, or the fault for which that is to be refused.
    pub request: Result<Request, RequestFault>,
    // Where its answer is written.
    answer: String,
}

/// What there is under the name of a request.
#[derive(Debug, Drop)]
pub enum Found {
    Taken(Taken),
    PassedOver(PassedOver),
}

/// The requests in a directory, as the run sees them.
#[derive(Drop)]
pub struct Requests {
    directory: String,
    // The ids of those that were passed over, of which it was told.
    told: Vec<u32>,
}

impl Requests {
    /// Those of the directory at this path.
    ///
    /// # Errors
    /// Memory was refused.
    pub fn new(alloc: Global, directory: &str) -> Result<Self, AllocError> {
        Ok(Requests {
            directory: String::from_str(alloc, directory)?,
            told: Vec::new(alloc),
        })
    }

    /// Takes the request with the least id that can be taken, if there is one: its file is gone then. Before it comes
    /// each file with a lesser id that is passed over, once as long as it is there. None keeps another from being
    /// taken.
    ///
    /// # Errors
    /// The directory could not be looked at or listed, or memory was refused: no request is taken then. If memory is
    /// refused only for the names in a request, that is taken, with the fault `NoMemory`.
    pub fn next<R: Clock + AllocGlobal + Files<File = File>>(
        &mut self,
        rt: &R,
    ) -> Result<Option<Found>, FileFault> {
        let (owner, pids) = list(rt, self.directory.as_str())?;
        self.told.retain(|pid| pids.contains(pid));
        for pid in &pids {
            match look(rt, self.directory.as_str(), owner, *pid)? {
                Some(Found::PassedOver(passed)) => {
                    if !self.told.contains(pid) {
                        self.told.push(*pid)?;
                        return Ok(Some(Found::PassedOver(passed)));
                    }
                }
                None => {}
                taken => return Ok(taken),
            }
        }
        Ok(None)
    }
}

impl Taken {
    /// Writes the answer, in place of one that is there.
    ///
    /// # Errors
    /// [`FileFault`]: there is no answer then.
    pub fn answer<R: AllocGlobal + Files<File = File>>(
        self,
        rt: &R,
        status: AnswerStatus,
        text: &[u8],
    ) -> Result<(), FileFault> {
        let octets = octets_of(rt.alloc(), status, text)?;
        put_file(rt, self.answer.as_str(), &octets)
    }
}

fn octets_of(alloc: Global, status: AnswerStatus, text: &[u8]) -> Result<Vec<u8>, AllocError>
    ensures { IfOk result (λ octets. octets.items ≡ answer_text status text.now) }
{
    let mut octets = Vec::new(alloc);
    write_answer(status, text, &mut octets)?;
    Ok(octets)
}

// The owner of the directory at this path, and the ids of the processes whose requests are in it, rising.
fn list<R: AllocGlobal + Files<File = File>>(
    rt: &R,
    directory: &str,
) -> Result<(u32, Vec<u32>), FileFault> {
    match list_directory(rt, directory) {
        Ok(listed) => Ok(listed),
        Err(reason) => Err(FileFault::of(rt.alloc(), directory, reason)),
    }
}

fn list_directory<R: AllocGlobal + Files<File = File>>(
    rt: &R,
    directory: &str,
) -> io::Result<(u32, Vec<u32>)> {
    let owner = fs::metadata(rt, directory)?.uid();
    let mut pids = Vec::new(rt.alloc());
    for entry in fs::read_dir(&rt, directory)? {
        match entry {
            Ok(entry) => {
                if let Some(pid) = read_ask_name(entry.file_name().as_bytes()) {
                    pids.push(pid)?;
                }
            }
            // A name that is not valid UTF-8.
            Err(error) if error.kind() == ErrorKind::InvalidFilename => {}
            Err(error) => return Err(error),
        }
    }
    pids.sort_unstable();
    Ok((owner, pids))
}

// Takes the request of this process, if it is there and can be taken.
fn look<R: Clock + AllocGlobal + Files<File = File>>(
    rt: &R,
    directory: &str,
    owner: u32,
    pid: u32,
) -> Result<Option<Found>, FileFault>
    ensures { IfOk result (λ found. IfSome found (IsOfProcess directory.now pid)) }
{
    let alloc = rt.alloc();
    let path = ask_path(alloc, directory, pid)?;
    let answer = answer_path(alloc, directory, pid)?;
    let allowed = Allowed {
        owner,
        seconds: ASK_SECONDS,
        octets: REQUEST_MAX_OCTETS as u64 + 1,
    };
    match fetch(rt, path.as_str(), &allowed) {
        Ok(Fetched::Octets(octets)) => {
            let request = read_request(alloc, &octets);
            Ok(Some(Found::Taken(Taken {
                pid,
                request,
                answer,
            })))
        }
        // Whoever asked took it back.
        Ok(Fetched::Gone) => Ok(None),
        Ok(Fetched::Passed(reason)) => {
            Ok(Some(Found::PassedOver(PassedOver::Passed { path, reason })))
        }
        Err(FileFault::NoMemory) => Err(FileFault::NoMemory),
        Err(fault) => Ok(Some(Found::PassedOver(PassedOver::Failed(fault)))),
    }
}
