// Looks hosts up in threads.
use crate::host::{Answer, Host};
use crate::latest_answer::LatestAnswer;
use crate::look_up::LookUp;
use crate::look_up_queue::{LOOK_UPS_MAX, LookUpQueue, Start};
use crossbeam_channel::{Receiver, Sender, bounded};
use mio::Waker;
use std::alloc::{AllocError, Global};
use std::marker::PhantomData;
use std::sync::{Arc, Mutex, Wait};
use std::thread;
use std::thread::Threads;

/// Looks hosts up in threads of its own, at most 8 at once. Threads share it by reference or by copies of it
/// ([`Resolver::try_clone`]); no call waits for a look-up.
///
/// No call joins its threads: a look-up that never ends holds up neither the end of the program nor, as long as there
/// are fewer than 8 of them, the other hosts. A thread ends once the last copy is dropped and its look-up has ended.
#[derive(Drop)]
pub struct Resolver {
    shared: Arc<Shared>,
    // The channel by which the threads get their next hosts; `None` if no thread could be started.
    due: Option<Sender<usize>>,
}

// What the callers and the threads share.
#[derive(Drop)]
struct Shared {
    alloc: Global,
    hosts: Vec<Host>,
    queue: Mutex<LookUpQueue>,
    wakers: Mutex<Vec<Arc<Waker>>>,
}

// The capability of `R` to wait, for a thread of its own.
#[derive(Drop)]
struct Capability<R>(PhantomData<R>);

impl<R: Wait> Wait for Capability<R> {}

impl Resolver {
    /// A resolver of these hosts, which are named by their indices from here on. It starts one thread for each host
    /// to look up, but no more than 8. Nothing is looked up until it is asked for; a literal address is known from
    /// the start.
    ///
    /// # Errors
    /// Memory was refused.
    pub fn start<R: Threads + Wait + Send + 'static, L: LookUp + Send + Sync + Drop + 'static>(
        rt: &R,
        alloc: Global,
        hosts: Vec<Host>,
        look_up: L,
    ) -> Result<Resolver, AllocError> {
        let wanted = hosts
            .iter()
            .filter(|host| host.literal().is_none())
            .count()
            .min(LOOK_UPS_MAX);
        let queue = Mutex::new(LookUpQueue::new(alloc, latest_of(alloc, &hosts)?)?);
        let wakers = Mutex::new(Vec::new(alloc));
        let shared = Arc::new(
            alloc,
            Shared {
                alloc,
                hosts,
                queue,
                wakers,
            },
        )?;
        let look_up = Arc::new(alloc, look_up)?;
        let (sender, receiver) = bounded(alloc, LOOK_UPS_MAX)?;
        let mut has_thread = false;
        for _ in 0..wanted {
            has_thread |= has_started(rt, Worker::new(&shared, &look_up, &receiver));
        }
        Ok(Resolver {
            shared,
            due: if has_thread { Some(sender) } else { None },
        })
    }

    /// A copy of the resolver, for another thread.
    ///
    /// # Errors
    /// Memory was refused, or there are too many copies.
    pub fn try_clone(&self) -> Result<Resolver, AllocError> {
        Ok(Resolver {
            shared: Arc::try_clone(&self.shared)?,
            due: match &self.due {
                Some(due) => Some(due.clone()?),
                None => None,
            },
        })
    }

    /// From now on each answer wakes this waker.
    ///
    /// # Errors
    /// Memory was refused: the waker will not be woken.
    pub fn wake_by<R: Wait>(&self, rt: &R, waker: Arc<Waker>) -> Result<(), AllocError> {
        self.shared.wakers.lock(rt).push(waker)?;
        Ok(())
    }

    /// Has a host looked up: at once, or as soon as fewer than 8 others are being looked up. Nothing happens if it is
    /// being looked up or waits for it, if it is a literal address, or if no host has this index. If no thread could
    /// be started, it is unknown at once.
    pub fn ask<R: Wait>(&self, rt: &R, host: usize) {
        if self.shared.is_literal(host) {
            return;
        }
        let start = self.shared.queue.lock(rt).ask(host);
        if start == Start::Now && !self.has_sent(rt, host) {
            self.shared.put_answer(
                rt,
                host,
                Answer::unknown(self.shared.alloc, "no thread could be started"),
            );
        }
    }

    // Whether a thread will take this host. The channel has room for all hosts that are due now.
    fn has_sent<R: Wait>(&self, rt: &R, host: usize) -> bool {
        match &self.due {
            Some(due) => due.try_send(rt, host).is_ok(),
            None => false,
        }
    }

    /// The latest answer for a host, if there is one that is new to this caller. `seen` is the caller's own count for
    /// this host, 0 at first.
    ///
    /// # Errors
    /// Memory was refused: the answer is still new to the caller.
    pub fn news<R: Wait>(
        &self,
        rt: &R,
        host: usize,
        seen: &mut u64,
    ) -> Result<Option<Answer>, AllocError> {
        let news = self
            .shared
            .queue
            .lock(rt)
            .news(self.shared.alloc, host, *seen)?;
        match news {
            Some((answers, answer)) => {
                *seen = answers;
                Ok(Some(answer))
            }
            None => Ok(None),
        }
    }

    /// Whether a host is being looked up or waits for it.
    pub fn is_looking<R: Wait>(&self, rt: &R, host: usize) -> bool {
        self.shared.queue.lock(rt).is_looking(host)
    }
}

impl Shared {
    fn is_literal(&self, host: usize) -> bool {
        match self.hosts.get(host) {
            Some(host) => host.literal().is_some(),
            None => false,
        }
    }

    fn answer<L: LookUp>(&self, look_up: &L, host: usize) -> Answer {
        let Some(host) = self.hosts.get(host) else {
            return Answer::unknown(self.alloc, "no such host");
        };
        match look_up.look_up(self.alloc, &host.name, host.port) {
            Ok(addresses) if addresses.is_empty() => Answer::unknown(self.alloc, "no address"),
            Ok(addresses) => Answer::Found(addresses),
            Err(error) => match format!(in self.alloc; "{error}") {
                Ok(reason) => Answer::Unknown(reason),
                Err(_) => Answer::Unknown(String::new(self.alloc)),
            },
        }
    }

    // Puts the answer of a host that was being looked up, and returns the host that takes its place.
    fn put_answer<R: Wait>(&self, rt: &R, host: usize, answer: Answer) -> Option<usize> {
        let next = self.queue.lock(rt).answered(host, answer);
        let wakers = self.wakers.lock(rt);
        for waker in wakers.iter() {
            let _ = waker.wake();
        }
        next
    }
}

fn has_started<R: Threads + Wait + Send + 'static, L: LookUp + Send + Sync + Drop + 'static>(
    rt: &R,
    worker: Result<Worker<L>, AllocError>,
) -> bool {
    let capability = Capability::<R>(PhantomData);
    match worker {
        Ok(worker) => thread::spawn(rt, move || worker.run(&capability)).is_ok(),
        Err(_) => false,
    }
}

fn latest_of(alloc: Global, hosts: &[Host]) -> Result<Vec<LatestAnswer>, AllocError> {
    let mut all = Vec::with_capacity(alloc, hosts.len())?;
    for host in hosts {
        let mut latest = LatestAnswer::new();
        if let Some(address) = host.literal() {
            let mut addresses = Vec::new(alloc);
            addresses.push(address)?;
            latest.put(Answer::Found(addresses));
        }
        all.push(latest)?;
    }
    Ok(all)
}

// What a thread uses.
#[derive(Drop)]
struct Worker<L: Drop> {
    shared: Arc<Shared>,
    look_up: Arc<L>,
    due: Receiver<usize>,
}

impl<L: LookUp + Drop> Worker<L> {
    fn new(
        shared: &Arc<Shared>,
        look_up: &Arc<L>,
        due: &Receiver<usize>,
    ) -> Result<Worker<L>, AllocError> {
        Ok(Worker {
            shared: Arc::try_clone(shared)?,
            look_up: Arc::try_clone(look_up)?,
            due: due.clone()?,
        })
    }

    // Looks up one host after another, until no caller is left.
    fn run<R: Wait>(&self, rt: &R) {
        for _ in rt.forever() {
            match self.due.recv(rt) {
                Ok(host) => self.look_up_from(rt, host),
                Err(_) => return,
            }
        }
        unreachable!()
    }

    // Looks a host up, and those that then take its place.
    fn look_up_from<R: Wait>(&self, rt: &R, host: usize) {
        let mut host = host;
        for _ in rt.forever() {
            let answer = self.shared.answer(&*self.look_up, host);
            match self.shared.put_answer(rt, host, answer) {
                Some(next) => host = next,
                None => return,
            }
        }
        unreachable!()
    }
}
