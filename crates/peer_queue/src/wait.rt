// What a debt waits for.
ghost use Rattle.std.specs.Prelude.{◌≡◌};
ghost use Rattle.peer_queue.specs.Index.{due_at};

/// What a debt waits for, if no connection holds it.
#[derive(Clone, Copy)]
pub(crate) enum Readiness {
    /// Nothing: it is ready.
    Ready,
    /// This moment; until 0 is no wait.
    Until(u64),
}

impl Readiness {
    // The moment from which on it may be claimed. 0 stands for ready, since no debt waits until moment 0.
    pub(crate) fn due_at(self) -> u64
        ensures { result ≡ due_at self }
    {
        match self {
            Readiness::Ready => 0,
            Readiness::Until(moment) => moment,
        }
    }
}
