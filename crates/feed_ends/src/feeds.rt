// The trait of what feeds peers.
ghost use Rattle.std.specs.Prelude.{ℕ, List, Option, Bool};
ghost use Rattle.feed_conf.specs.ConfView.{conf_view};
ghost use Rattle.feed_conf.specs.Settings.{Outcome};
ghost use Rattle.feed_ends.specs.Source.{Source, source_view};
ghost use Rattle.feed_ends.specs.declared.feed_end.FeedEnd.{FeedEnd};
ghost use Rattle.feed_ends.specs.declared.listing.Listing.{Listing};

use crate::feed_end::FeedEnd;
use crate::listing::Listing;
use crate::source::Source;
use feed_conf::Conf;
use std::alloc::Global;
use std::io::Write;

/// What feeds peers, and lists what they are owed.
pub trait Feeds {
    /// What a feed with these settings, from this source, dropping each missing article or not, logging or not, made of
    /// this value and of what was written, if it ended like this. The default holds of everything: it says only that
    /// the feed ended.
    ghost fed: { Self → Option (List ℕ) → Outcome → Source → Bool → Bool → FeedEnd → Self
        → Option (List ℕ) → Type 0 } = { λ _ _ _ _ _ _ _ _ _. Unit {0} };

    /// The same for a list of what is owed that has this much.
    ghost listed: { Self → Option (List ℕ) → Outcome → Listing → Bool → FeedEnd → Self
        → Option (List ℕ) → Type 0 } = { λ _ _ _ _ _ _ _ _. Unit {0} };

    /// Feeds the peers of these settings, which were read from the file at `path`, from this source, and writes
    /// `taken N` for each acknowledged batch of lines. `drops_missing` is whether each article that is missing from the
    /// spool is dropped, even if none of the run was found there. If `verbose`, logs what becomes of connections.
    fn feed<W: Write>(
        &mut self,
        alloc: Global,
        conf: Conf,
        path: &str,
        source: Source<'_>,
        drops_missing: bool,
        verbose: bool,
        out: &mut W,
    ) -> FeedEnd
        ensures { fed self.old (W.contents out.old) (conf_view conf)
            (source_view source.entry) drops_missing verbose result self.new
            (W.contents out.new) };

    /// Writes a line `NAME NUMBER TOKEN ID` for each debt of the peers of these settings, by name and rising number;
    /// with [`Scope::All`](crate::Scope::All) also what else waits in the backlog directory. If the listing has names,
    /// it writes what waits for these alone; each is one of the settings, or may be any with `Scope::All`. A summary
    /// has a line `NAME N OCTETS NUMBER` in place of the debts of a name. If `verbose`, logs the last line that is
    /// acknowledged.
    fn list_owed<W: Write>(
        &mut self,
        alloc: Global,
        conf: Conf,
        listing: &Listing<'_>,
        verbose: bool,
        out: &mut W,
    ) -> FeedEnd
        ensures { listed self.old (W.contents out.old) (conf_view conf) listing.now verbose result
            self.new (W.contents out.new) };
}
