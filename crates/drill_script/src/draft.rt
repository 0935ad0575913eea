// The draft of a script: what its lines so far say.
ghost use Rattle.std.specs.Prelude.{◌≡◌, ◌≢◌, ◌+◌, [], length, IfErr};
ghost use Rattle.std.specs.Prelude.{IfOk, List, MatchOption, None, OnOk, Option};
ghost use Rattle.std.specs.Prelude.{Some, is_some, ℕ};
ghost use Rattle.std.specs.Bool.{Decides};
ghost use Rattle.std.specs.List.{AllZip};
ghost use Rattle.feed_conf.specs.PeerView.{settings_view};
ghost use Rattle.drill_script.specs.Draft.{Drafts, Gains, IsPeerRefusal, IsReasonOf, IsRefusal, IsTapeRefusal};
ghost use Rattle.drill_script.specs.Draft.{IsWhyTape};
ghost use Rattle.drill_script.specs.Draft.{HaveOtherNames, IsGiven, held_by, held_in};
ghost use Rattle.drill_script.specs.Line.{Declares, Gives, Says, SentenceView, Takes};
ghost use Rattle.drill_script.specs.Script.{HasItsPeer, Holds, MayFollow, names_of};
ghost use Rattle.drill_script.specs.Step.{step_view};

use crate::disk_name::{DiskName, TapeDisk};
use crate::fault::{BrokenRule, ScriptFault};
use crate::read::Script;
use crate::sentence::{Sentence, read_sentence};
use feed_conf::PeerConf;
use funnel::PeerName;
use std::alloc::{AllocError, Global};
use std::collections::{BTreeMap, BTreeSet};
use world_core::Step;

/// What the lines so far say.
#[derive(Drop)]
pub struct Draft {
    // The peers, in the order of their lines.
    peers: Vec<PeerConf>,
    names: BTreeSet<Vec<u8>>,
    // What the first disks of tapes hold, if a line gives it, and the second ones.
    firsts: GivenOctets,
    seconds: GivenOctets,
    steps: Vec<Step>,
    // The line number of each step, from 1.
    lines: Vec<usize>,
}

impl Draft {
    pub fn new(alloc: Global) -> Self
        ensures { Drafts result [] }
    {
        Draft {
            peers: Vec::new(alloc),
            names: BTreeSet::new(alloc),
            firsts: GivenOctets::new(alloc),
            seconds: GivenOctets::new(alloc),
            steps: Vec::new(alloc),
            lines: Vec::new(alloc),
        }
    }

    /// Takes in the line at this line number, without its LF and the CR before that.
    ///
    /// # Errors
    /// `Broken` if the line breaks the rules, after the lines so far; `NoMemory`.
    pub fn add(&mut self, alloc: Global, line_number: usize, line: &[u8]) -> Result<(), ScriptFault>
        ensures ok { OnOk result ((before : List SentenceView) → Drafts self.old before
            → line_number ≡ length before + 1
            → (said : SentenceView) × Says line.now said × Gains self.old self.new before said) }
        ensures broken { IfErr result (λ fault. (before : List SentenceView)
            → Drafts self.old before → IsRefusal line_number line.now before fault) }
    {
        match read_sentence(alloc, line)? {
            Some(Sentence::Nothing) => Ok(()),
            Some(Sentence::Peer(conf)) => self.declare(alloc, line_number, conf),
            Some(Sentence::Tape(name, octets)) => self.give(alloc, line_number, name, octets),
            Some(Sentence::Step(step)) => {
                self.take(line_number, step)?;
                Ok(())
            }
            None => Err(ScriptFault::Broken {
                line: line_number,
                reason: reason_of(line),
            }),
        }
    }

    fn take(&mut self, line_number: usize, step: Step) -> Result<(), AllocError>
        ensures { OnOk result ((before : List SentenceView) → Drafts self.old before
            → line_number ≡ length before + 1
            → Gains self.old self.new before (Takes (step_view step))) }
    {
        self.lines.push(line_number)?;
        self.steps.push(step)?;
        Ok(())
    }

    fn declare(
        &mut self,
        alloc: Global,
        line_number: usize,
        conf: PeerConf,
    ) -> Result<(), ScriptFault>
        ensures ok { OnOk result ((before : List SentenceView) → Drafts self.old before
            → Gains self.old self.new before (Declares (settings_view conf))) }
        ensures broken { IfErr result (λ fault. (before : List SentenceView)
            → Drafts self.old before
            → IsPeerRefusal line_number (settings_view conf) before fault) }
    {
        if !self.steps.is_empty() {
            return Err(ScriptFault::Broken {
                line: line_number,
                reason: BrokenRule::PeerBehindStep,
            });
        }
        let name = Vec::from_slice(alloc, conf.name.bytes())?;
        if !self.names.insert(name)? {
            return Err(ScriptFault::Broken {
                line: line_number,
                reason: BrokenRule::DeclaredTwice,
            });
        }
        self.peers.push(conf)?;
        Ok(())
    }

    // Gives the disk of this name its octets.
    fn give(
        &mut self,
        alloc: Global,
        line_number: usize,
        name: DiskName,
        octets: Vec<u8>,
    ) -> Result<(), ScriptFault>
        ensures ok { OnOk result ((before : List SentenceView) → Drafts self.old before
            → Gains self.old self.new before (Gives name octets.items)) }
        ensures broken { IfErr result (λ fault. (before : List SentenceView)
            → Drafts self.old before → IsTapeRefusal line_number name before fault) }
    {
        if let Some(reason) = self.why_no_tape(&name) {
            return Err(ScriptFault::Broken {
                line: line_number,
                reason,
            });
        }
        match name.disk {
            TapeDisk::First => {
                self.firsts.give(alloc, name.peer, octets)?;
                Ok(())
            }
            TapeDisk::Second => {
                self.seconds.give(alloc, name.peer, octets)?;
                Ok(())
            }
        }
    }

    // Why this disk may not follow the lines so far; `None` if it may.
    fn why_no_tape(&self, name: &DiskName) -> Option<BrokenRule>
        ensures { (before : List SentenceView) → Drafts self.now before → MatchOption result
            ((octets : List ℕ) → MayFollow before (Gives name.now octets))
            (λ reason. IsWhyTape before name.now reason) }
    {
        if !self.steps.is_empty() {
            Some(BrokenRule::TapeBehindStep)
        } else if !self.has_peer_of(&name.peer) {
            Some(BrokenRule::NoPeerOfTape)
        } else if self.gives(name) {
            Some(BrokenRule::TapeTwice)
        } else {
            None
        }
    }

    // Whether the peer of a tape is declared; the intake's needs none.
    fn has_peer_of(&self, peer: &Option<PeerName>) -> bool
        ensures { (before : List SentenceView) → Drafts self.now before
            → Decides result (HasItsPeer (names_of before) peer.now) }
    {
        match peer {
            Some(name) => self.names.contains(name.bytes()),
            None => true,
        }
    }

    // Whether a line gives this disk.
    fn gives(&self, name: &DiskName) -> bool
        ensures { result ≡ is_some (held_in self.now name.now) }
    {
        match name.disk {
            TapeDisk::First => self.firsts.holds(&name.peer),
            TapeDisk::Second => self.seconds.holds(&name.peer),
        }
    }

    /// The script that the lines so far make.
    ///
    /// # Errors
    /// Memory was refused.
    pub fn finish(self, alloc: Global) -> Result<Script, AllocError>
        ensures { IfOk result (λ script. (sentences : List SentenceView)
            → Drafts self sentences → Holds script sentences) }
    {
        let Draft {
            mut peers,
            firsts,
            seconds,
            steps,
            lines,
            ..
        } = self;
        peers.sort_by(|a, b| a.name.bytes().cmp(b.name.bytes()))?;
        let intake = (
            firsts.intake.unwrap_or(Vec::new(alloc)),
            seconds.intake.unwrap_or(Vec::new(alloc)),
        );
        Ok(Script {
            peers: with_tapes(alloc, peers, firsts.peers, seconds.peers)?,
            intake,
            steps,
            lines,
        })
    }
}

/// What lines give of one disk of each tape.
#[derive(Drop)]
pub struct GivenOctets {
    // What those of peers hold, by the peer's name.
    peers: BTreeMap<Vec<u8>, Vec<u8>>,
    // What the intake's holds.
    intake: Option<Vec<u8>>,
}

impl GivenOctets {
    fn new(alloc: Global) -> Self
        ensures { (peer : Option (List ℕ)) → held_by result peer ≡ None }
    {
        GivenOctets {
            peers: BTreeMap::new(alloc),
            intake: None,
        }
    }

    // Whether that of this peer's tape, or of the intake's, is given.
    fn holds(&self, peer: &Option<PeerName>) -> bool
        ensures { result ≡ is_some (held_by self.now peer.now) }
    {
        match peer {
            Some(name) => self.peers.contains_key(name.bytes()),
            None => self.intake.is_some(),
        }
    }

    // Gives these octets to that of this peer's tape, or of the intake's.
    fn give(
        &mut self,
        alloc: Global,
        peer: Option<PeerName>,
        octets: Vec<u8>,
    ) -> Result<(), AllocError>
        ensures here { OnOk result (held_by self.new peer ≡ Some octets.items) }
        ensures others { OnOk result ((other : Option (List ℕ)) → other ≢ peer
            → held_by self.new other ≡ held_by self.old other) }
    {
        match peer {
            Some(name) => {
                let key = Vec::from_slice(alloc, name.bytes())?;
                self.peers.insert(key, octets)?;
            }
            None => self.intake = Some(octets),
        }
        Ok(())
    }
}

// The peers, each with what the first and the second disk of its tape hold. Their names are distinct.
fn with_tapes(
    alloc: Global,
    peers: Vec<PeerConf>,
    mut firsts: BTreeMap<Vec<u8>, Vec<u8>>,
    mut seconds: BTreeMap<Vec<u8>, Vec<u8>>,
) -> Result<Vec<(PeerConf, Vec<u8>, Vec<u8>)>, AllocError>
    ensures { IfOk result (λ given. HaveOtherNames peers.items
        → AllZip (IsGiven firsts seconds) peers.items given.items) }
{
    let mut given = Vec::with_capacity(alloc, peers.len())?;
    for conf in peers {
        let first = firsts.remove(conf.name.bytes()).unwrap_or(Vec::new(alloc));
        let second = seconds.remove(conf.name.bytes()).unwrap_or(Vec::new(alloc));
        given.push((conf, first, second))?;
    }
    Ok(given)
}

fn reason_of(line: &[u8]) -> BrokenRule
    ensures { IsReasonOf line.now result }
{
    if line.starts_with(b"peer ") {
        BrokenRule::NoPeer
    } else if line.starts_with(b"tape ") {
        BrokenRule::NoTape
    } else {
        BrokenRule::NoStep
    }
}
