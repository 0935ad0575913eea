// The quiet moment of a connection: a wait for an answer is counted from it.
ghost use Rattle.std.specs.Prelude.{◌≡◌, ◌-◌, ◌&&◌, not, Some, None, false};
ghost use Rattle.conn_core.specs.History.{moment};

// What ticks look at. The quiet moment is `None` before the first tick.
#[derive(Debug, Drop)]
pub(crate) struct QuietClock {
    // Whether a reply came in or octets went out since the last tick.
    pub(crate) stirred: bool,
    // In seconds.
    pub(crate) quiet: Option<u64>,
}

impl QuietClock {
    pub(crate) fn new() -> Self
        ensures { result ≡ record { stirred = false; quiet = None } }
    {
        QuietClock {
            stirred: false,
            quiet: None,
        }
    }

    // Sets the time, in seconds, and returns for how many seconds nothing came while an answer was awaited.
    pub(crate) fn tick(&mut self, awaiting: bool, now: u64) -> u64
        ensures quiet { self.new
            ≡ record {
              stirred = false;
              quiet = Some
                  (moment self.old.quiet (not self.old.stirred && awaiting) now);
            } }
        ensures since { result ≡ now
            - moment self.old.quiet (not self.old.stirred && awaiting) now }
    {
        let quiet = match self.quiet {
            Some(quiet) if !self.stirred && awaiting => quiet,
            _ => now,
        };
        self.stirred = false;
        self.quiet = Some(quiet);
        now.saturating_sub(quiet)
    }
}
