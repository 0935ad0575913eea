// A list that has a line for each name.
use crate::directory::ReadTape;
use crate::fault::ListFault;
use crate::kept::{KeptFault, TakesArticles};
use crate::lines::{Article, Owed};
use crate::strangers::add_name;
use crate::summary::{Waiting, add_summary};
use crate::walk::ListsNames;
use std::alloc::{AllocError, Global};
use std::collections::{BTreeMap, BTreeSet};
use std::io::Write;

/// Lists how much waits for each name. Of the articles in `~unknown` and `NAME~kept` it keeps two numbers for each
/// name, and of a tape what reading it takes, with the keys of its debts.
#[derive(Drop)]
pub(crate) struct SummaryLines<'a, W> {
    alloc: Global,
    beside: BTreeMap<Vec<u8>, Waiting>,
    out: &'a mut W,
}

impl<'a, W: Write> SummaryLines<'a, W> {
    /// Lines that are written to this writer.
    pub fn new(alloc: Global, out: &'a mut W) -> Self {
        SummaryLines {
            alloc,
            beside: BTreeMap::new(alloc),
            out,
        }
    }

    // What waits for this name beside its tape, which is forgotten.
    fn remove(&mut self, name: &[u8]) -> Waiting {
        self.beside.remove(name).unwrap_or(Waiting::none())
    }
}

impl<W: Write> TakesArticles for SummaryLines<'_, W> {
    fn take(&mut self, _owed: Owed<'_>, article: &Article<'_>) -> Result<(), KeptFault> {
        let mut waiting = match self.beside.get(article.name) {
            Some(waiting) => *waiting,
            None => Waiting::none(),
        };
        waiting.add(&article.token, &article.id);
        self.beside
            .insert(Vec::from_slice(self.alloc, article.name)?, waiting)?;
        Ok(())
    }

    fn put(&mut self) -> Result<(), KeptFault> {
        Ok(())
    }
}

impl<W: Write> ListsNames for SummaryLines<'_, W> {
    fn add_left(&self, names: &mut BTreeSet<Vec<u8>>) -> Result<(), AllocError> {
        for name in self.beside.keys() {
            add_name(self.alloc, names, name)?;
        }
        Ok(())
    }

    fn list_tape(&mut self, name: &[u8], tape: &mut ReadTape) -> Result<(), ListFault> {
        let mut line = Vec::new(self.alloc);
        add_summary(&mut line, name, self.remove(name), tape)?;
        match self.out.write_all(&line) {
            Ok(()) => Ok(()),
            Err(error) => Err(ListFault::output(self.alloc, &error)),
        }
    }
}
