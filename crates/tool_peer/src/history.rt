// What the peer has accepted, and how it answers.
use anyhow::{Context, Result, bail};
use std::alloc::Global;
use std::collections::BTreeSet;
use std::fs::{self, File, OpenOptions};
use std::io::{ErrorKind, Write};
use std::rt::Files;

/// How it answers when an ordinary server would accept; 0 is never.
#[derive(Clone, Copy)]
pub struct Habits {
    /// Every `later`th offer is deferred.
    pub later: u64,
    /// A connection ends after `close` articles.
    pub close: u64,
}

impl Habits {
    /// Reads a word `later=N` or `close=N`.
    pub fn read(&mut self, word: &str) -> Result<()> {
        let Some((name, count)) = word.split_once('=') else {
            bail!("{word} is no option");
        };
        let count = count.parse::<u64>().context("N is no number")?;
        match name {
            "later" => self.later = count,
            "close" => self.close = count,
            _ => bail!("{word} is no option"),
        }
        Ok(())
    }
}

/// What becomes of an offer.
#[derive(Clone, Copy)]
pub enum Wish {
    Wanted,
    Later,
    Had,
}

/// The articles that were accepted, in memory and in the log.
#[derive(Drop)]
pub struct History {
    alloc: Global,
    log: File,
    ids: BTreeSet<Vec<u8>>,
    offers: u64,
    habits: Habits,
}

impl History {
    /// The history in the log, which is created if it is missing: the first word of each line is an article's
    /// message-id.
    pub fn open<R: AllocGlobal + Files<File = File>>(
        rt: &R,
        path: &str,
        habits: Habits,
    ) -> Result<Self> {
        let alloc = rt.alloc();
        let mut ids = BTreeSet::new(alloc);
        match fs::read(rt, path) {
            Ok(text) => put_ids(alloc, &mut ids, &text)?,
            Err(error) if error.kind() == ErrorKind::NotFound => {}
            Err(error) => bail!("{path}: {error}"),
        }
        let log = OpenOptions::new().append(true).create(true).open(rt, path)?;
        Ok(History {
            alloc,
            log,
            ids,
            offers: 0,
            habits,
        })
    }

    pub fn alloc(&self) -> Global {
        self.alloc
    }

    /// What becomes of an offer of this article.
    pub fn wish(&mut self, id: &[u8]) -> Wish {
        if self.ids.contains(id) {
            return Wish::Had;
        }
        self.offers = self.offers.saturating_add(1);
        if self.habits.later > 0 && self.offers % self.habits.later == 0 {
            Wish::Later
        } else {
            Wish::Wanted
        }
    }

    /// Accepts an article whose text has `length` octets with LF at the end of each line. The line in the log is one
    /// write, and is there before this returns. Returns false if the article is there already.
    pub fn accept(&mut self, id: &[u8], length: usize) -> Result<bool> {
        if self.ids.contains(id) {
            return Ok(false);
        }
        let mut line = Vec::from_slice(self.alloc, id)?;
        line.extend_from_slice(format!(in self.alloc; " {length}\n")?.as_bytes())?;
        self.log.write_all(&line)?;
        self.ids.insert(Vec::from_slice(self.alloc, id)?)?;
        Ok(true)
    }

    /// Whether a connection that has taken `articles` articles should end.
    pub fn is_enough(&self, articles: u64) -> bool {
        self.habits.close > 0 && articles >= self.habits.close
    }
}

// Adds the first word of each line.
fn put_ids(alloc: Global, ids: &mut BTreeSet<Vec<u8>>, text: &[u8]) -> Result<()> {
    for line in text.split(|octet| *octet == b'\n') {
        if let Some(id) = line.split(|octet| *octet == b' ').next()
            && !id.is_empty()
        {
            ids.insert(Vec::from_slice(alloc, id)?)?;
        }
    }
    Ok(())
}
