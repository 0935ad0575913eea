// The state of a reader of a configuration, item by item.
ghost use Rattle.std.specs.Prelude.{◌≡◌, ◌<◌, ◌≤◌, ◌+◌, ◌^◌, IfOk, MatchResult, Ok, false};
ghost use Rattle.std.specs.Option.{option_map};
ghost use Rattle.feed_conf.specs.declared.fault.ConfFaultKind.TheVariants.{NoMemory};
ghost use Rattle.feed_conf.specs.Items.{Group};
ghost use Rattle.feed_conf.specs.ItemView.{item_view};
ghost use Rattle.feed_conf.specs.Keys.{key_of};
ghost use Rattle.feed_conf.specs.Reading.{block_at, close_block, declare, declare_peer, innermost, is_declared};
ghost use Rattle.feed_conf.specs.Reading.{is_in_block, is_in_peer, number_in, open_block, report, start, step, use_key};
ghost use Rattle.feed_conf.specs.Reading.{use_taken, use_value};
ghost use Rattle.feed_conf.specs.ReaderView.{IsNamed, Steps, reader_view};
ghost use Rattle.feed_conf.specs.ValueView.{taken_view};

use crate::conf::Ignored;
use crate::fault::ConfFaultKind;
use crate::item::Item;
use crate::key::{SettingKey, find_key};
use crate::value::{Taken, Value, take_value};
use funnel::PeerName;
use std::alloc::Global;
use std::collections::BTreeMap;

/// A block that is open.
#[derive(Clone, Copy)]
pub(crate) struct OpenBlock {
    /// Blocks are numbered from 1 in the order in which they are opened; 0 is the scope of the file.
    pub(crate) number: usize,
    /// The line on which it is opened.
    pub(crate) line: u64,
    pub(crate) is_peer: bool,
}

/// A use of a key that counts.
#[derive(Clone, Copy)]
pub(crate) struct Use<'t> {
    pub(crate) line: u64,
    /// The number of its block, 0 for the scope of the file.
    pub(crate) block: usize,
    pub(crate) key: SettingKey,
    pub(crate) value: Value<'t>,
}

#[derive(Drop)]
pub(crate) struct Declared {
    pub(crate) name: PeerName,
    /// The line of its declaration.
    pub(crate) line: u64,
    /// The number of its own block.
    pub(crate) block: usize,
}

/// What was read so far.
#[derive(Drop)]
pub(crate) struct Reader<'t> {
    pub(crate) alloc: Global,
    /// The open blocks, outermost first.
    pub(crate) around: Vec<OpenBlock>,
    pub(crate) opened: usize,
    /// For each block that was opened, the number of the block around it.
    pub(crate) outer: Vec<usize>,
    pub(crate) uses: Vec<Use<'t>>,
    pub(crate) peers: Vec<Declared>,
    pub(crate) ignored: Vec<Ignored>,
    pub(crate) names: BTreeMap<String, usize>,
}

impl<'t> Reader<'t> {
    pub(crate) fn new(alloc: Global) -> Self
        ensures state { reader_view result ≡ start }
        ensures named { IsNamed result }
    {
        Reader {
            alloc,
            around: Vec::new(alloc),
            opened: 0,
            outer: Vec::new(alloc),
            uses: Vec::new(alloc),
            peers: Vec::new(alloc),
            ignored: Vec::new(alloc),
            names: BTreeMap::new(alloc),
        }
    }

    pub(crate) fn innermost(&self) -> Option<OpenBlock>
        ensures { result ≡ innermost self.now.around.items }
    {
        self.around.last().copied()
    }

    fn is_in_peer(&self) -> bool
        ensures { result ≡ is_in_peer (innermost self.now.around.items) }
    {
        match self.innermost() {
            None => false,
            Some(block) => block.is_peer,
        }
    }

    fn is_in_block(&self) -> bool
        ensures { result ≡ is_in_block (innermost self.now.around.items) }
    {
        match self.innermost() {
            None => false,
            Some(_) => true,
        }
    }

    // The number of the innermost open block, 0 for the scope of the file.
    fn number(&self) -> usize
        ensures { result ≡ number_in (innermost self.now.around.items) }
    {
        match self.innermost() {
            None => 0,
            Some(block) => block.number,
        }
    }

    fn is_declared(&self, name: &PeerName) -> bool
        requires { IsNamed self.now }
        ensures { result ≡ is_declared name.now (reader_view self.now).peers }
    {
        self.names.contains_key(text_of(name))
    }

    fn open(mut self, line: u64, is_peer: bool) -> Result<Self, ConfFaultKind>
        requires { self.opened < 2 ^ 63 }
        ensures state { MatchResult result
            (λ r. reader_view r ≡ open_block (reader_view self.entry)
            (block_at (reader_view self.entry) line is_peer)) (λ kind. kind ≡ NoMemory) }
        ensures keeps_names { IfOk result
            (λ r. (r.names ≡ self.entry.names) × (r.peers ≡ self.entry.peers)) }
    {
        let outer = self.number();
        self.outer.push(outer)?;
        let number = self.opened + 1;
        self.opened = number;
        self.around.push(OpenBlock {
            number,
            line,
            is_peer,
        })?;
        Ok(self)
    }

    fn open_group(self, line: u64) -> Result<Self, ConfFaultKind>
        requires { self.opened < 2 ^ 63 }
        ensures state { Steps (step (reader_view self.entry) line Group) result }
        ensures keeps_names { IfOk result
            (λ r. (r.names ≡ self.entry.names) × (r.peers ≡ self.entry.peers)) }
        ensures opened { IfOk result (λ r. r.opened ≤ self.entry.opened + 1) }
    {
        if self.is_in_peer() {
            return Err(ConfFaultKind::Unbalanced);
        }
        self.open(line, false)
    }

    fn close(mut self) -> Result<Self, ConfFaultKind>
        ensures state { Steps
            (close_block (innermost self.entry.around.items) (reader_view self.entry)) result }
        ensures keeps_names { IfOk result
            (λ r. (r.names ≡ self.entry.names) × (r.peers ≡ self.entry.peers)) }
        ensures opened { IfOk result (λ r. r.opened ≡ self.entry.opened) }
    {
        match self.innermost() {
            None => Err(ConfFaultKind::Unbalanced),
            Some(_) => {
                let left = self.around.len().saturating_sub(1);
                self.around.truncate(left);
                Ok(self)
            }
        }
    }

    // Keeps a use that was ignored or limited, for the log.
    fn report(
        mut self,
        line: u64,
        key: &[u8],
        value: &[u8],
        limited: bool,
    ) -> Result<Self, ConfFaultKind>
        ensures state { MatchResult result
            (λ r. reader_view r ≡ report (reader_view self.entry) line key.now value.now limited)
            (λ kind. kind ≡ NoMemory) }
        ensures keeps_names { IfOk result
            (λ r. (r.names ≡ self.entry.names) × (r.peers ≡ self.entry.peers)) }
        ensures opened { IfOk result (λ r. r.opened ≡ self.entry.opened) }
    {
        let key = Vec::from_slice(self.alloc, key)?;
        let value = Vec::from_slice(self.alloc, value)?;
        self.ignored.push(Ignored {
            line,
            key,
            value,
            limited,
        })?;
        Ok(self)
    }

    // Declares a peer whose name is new.
    fn declare(self, line: u64, name: PeerName) -> Result<Self, ConfFaultKind>
        requires room { self.opened < 2 ^ 63 }
        requires named { IsNamed self }
        requires fresh { is_declared name (reader_view self).peers ≡ false }
        ensures state { MatchResult result
            (λ r. reader_view r ≡ declare (reader_view self.entry) line name)
            (λ kind. kind ≡ NoMemory) }
        ensures named { IfOk result (λ r. IsNamed r) }
    {
        let alloc = self.alloc;
        let index = self.peers.len();
        let key = String::from_str(alloc, text_of(&name))?;
        let block = self.opened + 1;
        let mut reader = self.open(line, true)?;
        reader.peers.push(Declared { name, line, block })?;
        reader.names.insert(key, index)?;
        Ok(reader)
    }

    // The order of the tests decides which fault comes first: the place, the name, the brace.
    fn declare_peer(self, line: u64, name: &[u8], braced: bool) -> Result<Self, ConfFaultKind>
        requires room { self.opened < 2 ^ 63 }
        requires named { IsNamed self }
        ensures state { Steps (declare_peer (reader_view self.entry) line name.now braced) result }
        ensures named { IfOk result (λ r. IsNamed r) }
        ensures opened { IfOk result (λ r. r.opened ≤ self.entry.opened + 1) }
    {
        if self.is_in_peer() {
            return Err(ConfFaultKind::Unbalanced);
        }
        match PeerName::read(self.alloc, name)? {
            None => Err(ConfFaultKind::BadPeerName),
            Some(name) => {
                if self.is_declared(&name) {
                    Err(ConfFaultKind::SamePeer)
                } else if braced {
                    self.declare(line, name)
                } else {
                    Err(ConfFaultKind::Unbalanced)
                }
            }
        }
    }

    fn put(
        mut self,
        line: u64,
        name: &'t [u8],
        value: &'t [u8],
        key: SettingKey,
        taken: Taken<'t>,
    ) -> Result<Self, ConfFaultKind>
        ensures state { Steps (use_taken (reader_view self.entry) line name.now value.now key
            (Ok (taken_view taken.entry))) result }
        ensures keeps_names { IfOk result
            (λ r. (r.names ≡ self.entry.names) × (r.peers ≡ self.entry.peers)) }
        ensures opened { IfOk result (λ r. r.opened ≡ self.entry.opened) }
    {
        let block = self.number();
        self.uses.push(Use {
            line,
            block,
            key,
            value: taken.value,
        })?;
        if taken.limited {
            self.report(line, name, value, true)
        } else {
            Ok(self)
        }
    }

    // A key of the profile, where it is allowed.
    fn use_value(
        self,
        line: u64,
        name: &'t [u8],
        key: SettingKey,
        value: Option<&'t [u8]>,
    ) -> Result<Self, ConfFaultKind>
        ensures state { Steps (use_value (reader_view self.entry) line name.now key
            (option_map (λ v. v.now) value.entry)) result }
        ensures keeps_names { IfOk result
            (λ r. (r.names ≡ self.entry.names) × (r.peers ≡ self.entry.peers)) }
        ensures opened { IfOk result (λ r. r.opened ≡ self.entry.opened) }
    {
        match value {
            None => Err(ConfFaultKind::NoValue),
            Some(value) => match take_value(key.kind(), value) {
                Ok(taken) => self.put(line, name, value, key, taken),
                Err(kind) => Err(kind),
            },
        }
    }

    fn use_key(
        self,
        line: u64,
        name: &'t [u8],
        value: Option<&'t [u8]>,
    ) -> Result<Self, ConfFaultKind>
        ensures state { Steps (use_key (reader_view self.entry) line name.now
            (option_map (λ v. v.now) value.entry) (key_of name.now)) result }
        ensures keeps_names { IfOk result
            (λ r. (r.names ≡ self.entry.names) × (r.peers ≡ self.entry.peers)) }
        ensures opened { IfOk result (λ r. r.opened ≡ self.entry.opened) }
    {
        match find_key(name) {
            None => self.report(line, name, value.unwrap_or(&[]), false),
            Some(key) => {
                let is_ignored = key.is_of_file() && self.is_in_block();
                if is_ignored {
                    self.report(line, name, value.unwrap_or(&[]), false)
                } else {
                    self.use_value(line, name, key, value)
                }
            }
        }
    }

    /// The reader after one item.
    ///
    /// # Errors
    /// What is wrong with the item.
    pub(crate) fn apply(self, line: u64, item: Item<'t>) -> Result<Self, ConfFaultKind>
        requires room { self.opened < 2 ^ 63 }
        requires named { IsNamed self }
        ensures state { Steps (step (reader_view self.entry) line (item_view item.entry)) result }
        ensures named { IfOk result (λ r. IsNamed r) }
        ensures opened { IfOk result (λ r. r.opened ≤ self.entry.opened + 1) }
    {
        match item {
            Item::Peer(name, braced) => self.declare_peer(line, name, braced),
            Item::Group => self.open_group(line),
            Item::Closes => self.close(),
            Item::Uses(name, value) => self.use_key(line, name, value),
            Item::Stops(stop) => Err(stop.kind()),
        }
    }
}

pub(crate) fn text_of(name: &PeerName) -> &str
    ensures { result.now ≡ name.now }
{
    match str::from_utf8(name.bytes()) {
        Ok(text) => text,
        Err(_) => unreachable!(),
    }
}
