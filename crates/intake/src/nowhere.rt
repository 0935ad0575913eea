// Lines of the funnel that go nowhere: those that name unknown peers, and those that are malformed.
ghost use Rattle.std.specs.Prelude.{◌≡◌, ◌≤◌, [], None, OnOk, false, if◌then◌else◌, length, map};
ghost use Rattle.kept_lines.specs.Names.{is_named};
ghost use Rattle.intake.specs.Nowhere.{AddsLine, KeepsAll, KeepsOne, counted, has_all, has_name};
ghost use Rattle.funnel.specs.Malformed.{one_more};

use funnel::{LineFault, Malformed, PeerName};
use log::{Log, warn};
use std::alloc::{AllocError, Global};
use std::str;

// How many unknown peers are logged by name.
const NAMED_MAX: usize = 16;

/// An unknown peer.
#[derive(Drop)]
pub(crate) struct UnknownPeer {
    pub name: PeerName,
    /// How many lines name it, at most the greatest u64.
    pub lines: u64,
}

/// The lines that name unknown peers: the first 16 peers by name, and the others together.
#[derive(Drop)]
pub(crate) struct UnknownPeers {
    /// The peers that are logged by name, in the order of their first lines.
    pub named: Vec<UnknownPeer>,
    /// How many lines name a further one, at most the greatest u64.
    pub others: u64,
}

impl UnknownPeers {
    pub fn new(alloc: Global) -> Self
        ensures { (result.named.items ≡ []) × (result.others ≡ 0) }
    {
        UnknownPeers {
            named: Vec::new(alloc),
            others: 0,
        }
    }

    /// Counts a line that names these unknown peers, once for each peer, however often the line names it.
    ///
    /// # Errors
    /// Memory was refused: the line is not counted.
    pub fn add_line(&mut self, names: &[PeerName]) -> Result<(), AllocError>
        // At most `NAMED_MAX` peers are logged by name: `few` keeps that true for the next call, which requires it.
        requires { length self.old.named.items ≤ 16 }
        ensures ok { OnOk result (AddsLine names.now self.old self.new) }
        ensures few { length self.new.named.items ≤ 16 }
    {
        self.keep_all(names)?;
        self.count(names);
        self.count_others(names);
        Ok(())
    }

    // Counts a line that names a peer that is not logged by name.
    fn count_others(&mut self, names: &[PeerName])
        ensures named { self.new.named ≡ self.old.named }
        ensures others { self.new.others ≡ (if has_all self.old.named.items names.now
            then self.old.others else one_more self.old.others) }
    {
        if !self.has_all(names) {
            self.others = self.others.saturating_add(1);
        }
    }

    // Whether all these peers are logged by name.
    fn has_all(&self, names: &[PeerName]) -> bool
        ensures { result ≡ has_all self.now.named.items names.now }
    {
        names.iter().all(|name| self.has(name))
    }

    // Has peers logged by name, as far as there is room, with no line counted yet.
    #[tactic(auto, using(crate::proofs::Counts::keeps_none))]
    fn keep_all(&mut self, names: &[PeerName]) -> Result<(), AllocError>
        requires { length self.old.named.items ≤ 16 }
        ensures ok { OnOk result (KeepsAll names.now self.old self.new) }
        ensures few { length self.new.named.items ≤ 16 }
    {
        for name in names {
            self.keep(name)?;
        }
        Ok(())
    }

    // Has a peer logged by name if there is room, with no line counted yet.
    fn keep(&mut self, name: &PeerName) -> Result<(), AllocError>
        requires { length self.old.named.items ≤ 16 }
        ensures ok { OnOk result (KeepsOne name.now self.old self.new) }
        ensures few { length self.new.named.items ≤ 16 }
    {
        if self.named.len() >= NAMED_MAX || self.has(name) {
            return Ok(());
        }
        let name = name.clone()?;
        self.named.push(UnknownPeer { name, lines: 0 })?;
        Ok(())
    }

    // Whether a peer is logged by name.
    fn has(&self, name: &PeerName) -> bool
        ensures { result ≡ has_name self.now.named.items name.now }
    {
        self.named
            .iter()
            .any(|peer| peer.name.bytes() == name.bytes())
    }

    // Counts a line at each of these peers that is logged by name.
    fn count(&mut self, names: &[PeerName])
        ensures named { self.new.named.items ≡ map (counted names.now) self.old.named.items }
        ensures others { self.new.others ≡ self.old.others }
    {
        for peer in self.named.iter_mut() {
            peer.count(names);
        }
    }
}

impl UnknownPeer {
    // Counts a line that names these peers, if this is one of them.
    fn count(&mut self, names: &[PeerName])
        ensures { self.new ≡ counted names.now self.old }
    {
        if is_named(names, &self.name) {
            self.lines = self.lines.saturating_add(1);
        }
    }

    // Logs how many lines of the funnel at this path name it.
    fn log<R: Log>(&self, rt: &R, path: &str) {
        let name = text_of(self.name.bytes());
        warn!(rt; "{}: {} {} unknown peer {}", path, self.lines, naming(self.lines), name);
    }
}

// What so many lines do that name a peer.
fn naming(lines: u64) -> &'static str {
    if lines == 1 {
        "line names"
    } else {
        "lines name"
    }
}

fn is_named(names: &[PeerName], name: &PeerName) -> bool
    ensures { result ≡ is_named names.now name.now }
{
    names.iter().any(|one| one.bytes() == name.bytes())
}

/// The lines of a run's funnel that go nowhere.
#[derive(Drop)]
pub struct Nowhere {
    unknown: UnknownPeers,
    malformed: Option<Malformed>,
    // Whether a line was counted since `log_new`.
    is_new: bool,
    // At most `NAMED_MAX` are logged by name, as `add_line` requires.
    ghost few: { length unknown.named.items ≤ 16 },
}

impl Nowhere {
    /// No line is counted.
    pub fn new(alloc: Global) -> Self
        ensures { (result.unknown.named.items ≡ []) × (result.unknown.others ≡ 0)
            × (result.malformed ≡ None) × (result.is_new ≡ false) }
    {
        Nowhere {
            unknown: UnknownPeers::new(alloc),
            malformed: None,
            is_new: false,
        }
    }

    /// Counts a line that names these unknown peers.
    ///
    /// # Errors
    /// Memory was refused: the line is not counted.
    pub(crate) fn add_unknown(&mut self, names: &[PeerName]) -> Result<(), AllocError> {
        if names.is_empty() {
            return Ok(());
        }
        self.is_new = true;
        self.unknown.add_line(names)
    }

    /// Counts a malformed line, which has this number.
    pub(crate) fn add_malformed(&mut self, number: u64, fault: LineFault) {
        self.is_new = true;
        self.malformed = Some(Malformed::add(self.malformed, number, fault));
    }

    /// Logs them if a line was counted since the last call. `path` is the funnel's.
    pub(crate) fn log_new<R: Log>(&mut self, rt: &R, path: &[u8]) {
        if self.is_new {
            self.is_new = false;
            self.log(rt, path);
        }
    }

    /// Logs them: a line for each unknown peer, and one for the malformed lines. `path` is the funnel's.
    pub(crate) fn log<R: Log>(&self, rt: &R, path: &[u8]) {
        let path = text_of(path);
        for peer in &self.unknown.named {
            peer.log(rt, path);
        }
        log_others(rt, path, self.unknown.others);
        log_malformed(rt, path, self.malformed);
    }
}

// Logs how many lines name further unknown peers.
fn log_others<R: Log>(rt: &R, path: &str, lines: u64) {
    if lines > 0 {
        warn!(rt; "{}: {} {} other unknown peers", path, lines, naming(lines));
    }
}

fn log_malformed<R: Log>(rt: &R, path: &str, malformed: Option<Malformed>) {
    let Some(
        Malformed {
            lines,
            number,
            fault,
        },
    ) = malformed
    else {
        return;
    };
    let which = if lines == 1 {
        "line, at"
    } else {
        "lines, first at"
    };
    warn!(rt; "{}: {} malformed {} line {}: {}", path, lines, which, number, fault.name());
}

// A path or a name, as text.
fn text_of(octets: &[u8]) -> &str {
    str::from_utf8(octets).unwrap_or("")
}
