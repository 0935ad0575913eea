// A list that has a line for each article.
use crate::directory::ReadTape;
use crate::fault::ListFault;
use crate::kept::{KeptFault, TakesArticles};
use crate::lines::{Article, Owed, add_article, add_debt};
use crate::walk::ListsNames;
use ledger_core::Key;
use recovery::TapeFault;
use std::alloc::{AllocError, Global};
use std::collections::BTreeSet;
use std::io::{self, Write};

/// Lists articles, a line for each.
#[derive(Drop)]
pub(crate) struct ArticleLines<'a, W> {
    alloc: Global,
    // Lines that are not written yet.
    text: Vec<u8>,
    out: &'a mut W,
}

impl<'a, W: Write> ArticleLines<'a, W> {
    /// Lines that are written to this writer.
    pub fn new(alloc: Global, out: &'a mut W) -> Self {
        ArticleLines {
            alloc,
            text: Vec::new(alloc),
            out,
        }
    }

    // Writes the line for the debt of this key.
    fn list_debt(&mut self, name: &[u8], tape: &mut ReadTape, key: Key) -> Result<(), ListFault> {
        add_debt_of(self.alloc, &mut self.text, name, tape, key)?;
        match self.write() {
            Ok(()) => Ok(()),
            Err(error) => Err(ListFault::output(self.alloc, &error)),
        }
    }

    // Writes the lines that were added, and holds none any more.
    fn write(&mut self) -> io::Result<()> {
        self.out.write_all(&self.text)?;
        self.text.clear();
        Ok(())
    }
}

impl<W: Write> TakesArticles for ArticleLines<'_, W> {
    fn take(&mut self, owed: Owed<'_>, article: &Article<'_>) -> Result<(), KeptFault> {
        add_article(&mut self.text, owed, article)?;
        Ok(())
    }

    fn put(&mut self) -> Result<(), KeptFault> {
        match self.write() {
            Ok(()) => Ok(()),
            Err(error) => Err(KeptFault::Output(error)),
        }
    }
}

impl<W: Write> ListsNames for ArticleLines<'_, W> {
    fn add_left(&self, _names: &mut BTreeSet<Vec<u8>>) -> Result<(), AllocError> {
        Ok(())
    }

    fn list_tape(&mut self, name: &[u8], tape: &mut ReadTape) -> Result<(), ListFault> {
        let keys = tape.keys()?;
        for key in &keys {
            self.list_debt(name, tape, *key)?;
        }
        Ok(())
    }
}

// Adds the line for the debt of this key.
fn add_debt_of(
    alloc: Global,
    line: &mut Vec<u8>,
    name: &[u8],
    tape: &mut ReadTape,
    key: Key,
) -> Result<(), ListFault> {
    let debt = match tape.debt(key) {
        Ok(Some(debt)) => debt,
        Ok(None) | Err(TapeFault::NoMemory) => return Err(ListFault::NoMemory),
        Err(fault) => return Err(ListFault::tape(alloc, name, fault)),
    };
    add_debt(line, name, key, debt.token().bytes(), debt.id().bytes())?;
    Ok(())
}
