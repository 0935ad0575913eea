// The octets of one connection: what came in, and what is to be sent.
use crate::history::{History, Wish};
use anyhow::{Result, bail};
use dot_codec::{BlockFault, from_block};
use memchr::{memchr, memmem};
use std::alloc::Global;

// The longest line that it waits for, in octets.
const LINE_MAX_OCTETS: usize = 65_536;

#[derive(Clone, Copy)]
enum SendCommand {
    Takethis,
    Ihave,
}

#[derive(Drop)]
struct Awaited {
    id: Vec<u8>,
    sender: SendCommand,
}

/// The exchange on one connection.
#[derive(Drop)]
pub struct PeerExchange {
    alloc: Global,
    input: Vec<u8>,
    // How many octets of the input are read, and up to which index no end of a block was found.
    read: usize,
    searched: usize,
    awaited: Option<Awaited>,
    articles: u64,
    /// What is to be sent.
    pub output: Vec<u8>,
    /// Nothing more is read, and the connection closes once the output is sent.
    pub ended: bool,
}

impl PeerExchange {
    /// A new connection: the greeting is to be sent (RFC 3977, section 5.1).
    pub fn new(alloc: Global) -> Result<Self> {
        Ok(PeerExchange {
            alloc,
            input: Vec::new(alloc),
            read: 0,
            searched: 0,
            awaited: None,
            articles: 0,
            output: Vec::from_slice(alloc, b"200 tool_peer\r\n")?,
            ended: false,
        })
    }

    /// Takes octets that came in, and adds the reply to each whole command among them to the output.
    pub fn take_in(&mut self, octets: &[u8], history: &mut History) -> Result<()> {
        self.input.extend_from_slice(octets)?;
        for _ in 0..u64::MAX {
            if self.ended || !self.step(history)? {
                break;
            }
        }
        self.forget_read()
    }

    fn forget_read(&mut self) -> Result<()> {
        if self.read > 0 {
            let rest = Vec::from_slice(self.alloc, unread(&self.input, self.read))?;
            self.searched = self.searched.saturating_sub(self.read);
            self.input = rest;
            self.read = 0;
        }
        Ok(())
    }

    // Reads one line or one block; false if the octets end before it does.
    fn step(&mut self, history: &mut History) -> Result<bool> {
        match self.awaited.take() {
            Some(awaited) => self.read_block(awaited, history),
            None => self.read_line(history),
        }
    }

    fn read_line(&mut self, history: &mut History) -> Result<bool> {
        let rest = unread(&self.input, self.read);
        let Some(end) = memchr(b'\n', rest) else {
            self.ended = rest.len() > LINE_MAX_OCTETS;
            return Ok(false);
        };
        let line = Vec::from_slice(self.alloc, rest.get(..end).unwrap_or(b""))?;
        self.read = self.read.saturating_add(end).saturating_add(1);
        self.searched = self.read;
        self.answer(line.as_slice().trim_ascii(), history)?;
        Ok(true)
    }

    // Answers a command (RFC 3977, section 6.3.2; RFC 4644, section 2).
    fn answer(&mut self, line: &[u8], history: &mut History) -> Result<()> {
        let (word, rest) = words_of(line);
        if word.eq_ignore_ascii_case(b"CHECK") && !rest.is_empty() {
            match history.wish(rest) {
                Wish::Wanted => self.reply(b"238", rest),
                Wish::Later => self.reply(b"431", rest),
                Wish::Had => self.reply(b"438", rest),
            }
        } else if word.eq_ignore_ascii_case(b"TAKETHIS") {
            self.await_block(rest, SendCommand::Takethis)
        } else if word.eq_ignore_ascii_case(b"IHAVE") && !rest.is_empty() {
            match history.wish(rest) {
                Wish::Wanted => {
                    self.reply(b"335", b"send it")?;
                    self.await_block(rest, SendCommand::Ihave)
                }
                Wish::Later => self.reply(b"436", b"later"),
                Wish::Had => self.reply(b"435", b"had it"),
            }
        } else if word.eq_ignore_ascii_case(b"MODE") && rest.eq_ignore_ascii_case(b"STREAM") {
            self.reply(b"203", b"streaming permitted")
        } else if word.eq_ignore_ascii_case(b"QUIT") {
            self.ended = true;
            self.reply(b"205", b"bye")
        } else {
            self.reply(b"500", b"what?")
        }
    }

    fn await_block(&mut self, id: &[u8], sender: SendCommand) -> Result<()> {
        self.awaited = Some(Awaited {
            id: Vec::from_slice(self.alloc, id)?,
            sender,
        });
        Ok(())
    }

    // Reads the block of an article, if all of it is there.
    fn read_block(&mut self, awaited: Awaited, history: &mut History) -> Result<bool> {
        if !self.has_end() {
            self.awaited = Some(awaited);
            return Ok(false);
        }
        match from_block(self.alloc, unread(&self.input, self.read)) {
            Ok((text, used)) => {
                self.read = self.read.saturating_add(used);
                self.searched = self.read;
                let taken = history.accept(&awaited.id, text.len())?;
                self.tell(&awaited, taken)?;
                self.articles = self.articles.saturating_add(1);
                self.ended = history.is_enough(self.articles);
            }
            Err(BlockFault::NoMemory) => bail!("out of memory"),
            Err(_) => {
                self.tell(&awaited, false)?;
                self.ended = true;
            }
        }
        Ok(true)
    }

    // Whether the unread octets have a line of one dot. What was searched is not searched again.
    fn has_end(&mut self) -> bool {
        if unread(&self.input, self.read).starts_with(b".\r\n") {
            return true;
        }
        let found = memmem::find(unread(&self.input, self.searched), b"\r\n.\r\n").is_some();
        if !found {
            self.searched = self.input.len().saturating_sub(4).max(self.read);
        }
        found
    }

    fn tell(&mut self, awaited: &Awaited, taken: bool) -> Result<()> {
        match (awaited.sender, taken) {
            (SendCommand::Takethis, true) => self.reply(b"239", &awaited.id),
            (SendCommand::Takethis, false) => self.reply(b"439", &awaited.id),
            (SendCommand::Ihave, true) => self.reply(b"235", b"thanks"),
            (SendCommand::Ihave, false) => self.reply(b"437", b"not taken"),
        }
    }

    fn reply(&mut self, code: &[u8], rest: &[u8]) -> Result<()> {
        self.output.extend_from_slice(code)?;
        self.output.extend_from_slice(b" ")?;
        self.output.extend_from_slice(rest)?;
        self.output.extend_from_slice(b"\r\n")?;
        Ok(())
    }
}

fn unread(octets: &[u8], from: usize) -> &[u8] {
    octets.get(from..).unwrap_or(b"")
}

// The first word of a line, and the rest after the blanks.
fn words_of(line: &[u8]) -> (&[u8], &[u8]) {
    match memchr(b' ', line) {
        Some(end) => (
            line.get(..end).unwrap_or(b""),
            unread(line, end).trim_ascii(),
        ),
        None => (line, b""),
    }
}
