// A row: a call, its arguments, and the answer that is wanted.
use crate::fault::RowFault;
use crate::octets::add_octets;
use std::alloc::Global;
use std::fs;
use std::rt::Files;

/// A call's name, and the rest of its row.
pub fn split_call(line: &str) -> Option<(&str, &str)> {
    line.split_at_checked(line.find(' ')?)
}

/// What a row has after the name of its call.
#[derive(Drop)]
pub struct Row {
    pub arguments: Vec<Vec<u8>>,
    pub answer: Vec<u8>,
}

impl Row {
    /// Reads ` "ARGUMENT" .. = "ANSWER"`.
    ///
    /// # Errors
    /// What is wrong with it, or why a file that it names cannot be read.
    pub fn read<R: AllocGlobal + Files>(rt: &R, rest: &str) -> Result<Row, RowFault> {
        let mut parts = RowParts {
            texts: Vec::new(rt.alloc()),
            has_answer: false,
            head: None,
            is_quoted: true,
            is_ended: false,
        };
        for piece in rest.split('"') {
            parts.take(rt, piece)?;
        }
        parts.row()
    }
}

// What comes before a text in quotes: which part of the row the text belongs to, and what it stands for.
#[derive(Clone, Copy)]
struct Head {
    place: Place,
    meaning: Meaning,
}

#[derive(Clone, Copy)]
enum Place {
    NextArgument,
    Answer,
    // The text goes on where the one before it ended.
    Same,
}

#[derive(Clone, Copy)]
enum Meaning {
    // Its octets.
    Octets,
    // Its one octet, this many times.
    Times(usize),
    // The octets of the file of this name.
    File,
}

impl Head {
    // Reads ` `, ` = ` or `+`, and after it nothing, `N*` or `@`.
    fn read(head: &str) -> Option<Head> {
        let (place, mark) = if let Some(mark) = head.strip_prefix(" = ") {
            (Place::Answer, mark)
        } else if let Some(mark) = head.strip_prefix(' ') {
            (Place::NextArgument, mark)
        } else {
            (Place::Same, head.strip_prefix('+')?)
        };
        let meaning = match mark {
            "" => Meaning::Octets,
            "@" => Meaning::File,
            _ => Meaning::Times(mark.strip_suffix('*')?.parse().ok()?),
        };
        Some(Head { place, meaning })
    }
}

// The octet that a text stands for.
fn octet_of(alloc: Global, text: &str) -> Result<u8, RowFault> {
    let mut octets = Vec::new(alloc);
    add_octets(&mut octets, text)?;
    match octets.as_slice() {
        [octet] => Ok(*octet),
        _ => Err(RowFault::NoRow),
    }
}

// The arguments of a row so far, and after them its answer.
#[derive(Drop)]
struct RowParts {
    texts: Vec<Vec<u8>>,
    has_answer: bool,
    // What came before the text in quotes that comes next, if it is a head.
    head: Option<Head>,
    // Whether the last piece of the line was in quotes.
    is_quoted: bool,
    // Whether the line may end here.
    is_ended: bool,
}

impl RowParts {
    // Takes the next piece of the line. They are by turns outside and inside quotes, and the first one is outside.
    fn take<R: AllocGlobal + Files>(&mut self, rt: &R, piece: &str) -> Result<(), RowFault> {
        self.is_quoted = !self.is_quoted;
        if self.is_quoted {
            self.is_ended = false;
            let head = self.head.ok_or(RowFault::NoRow)?;
            return self.add(rt, head, piece);
        }
        self.is_ended = piece.is_empty();
        self.head = Head::read(piece);
        Ok(())
    }

    // The row, at the end of its line.
    fn row(self) -> Result<Row, RowFault> {
        if !self.is_ended || !self.has_answer {
            return Err(RowFault::NoRow);
        }
        let mut arguments = self.texts;
        let answer = arguments.pop().ok_or(RowFault::NoRow)?;
        Ok(Row { arguments, answer })
    }

    fn add<R: AllocGlobal + Files>(
        &mut self,
        rt: &R,
        head: Head,
        text: &str,
    ) -> Result<(), RowFault> {
        match head.place {
            Place::Same => {}
            Place::NextArgument | Place::Answer if self.has_answer => return Err(RowFault::NoRow),
            Place::NextArgument => self.texts.push(Vec::new(rt.alloc()))?,
            Place::Answer => {
                self.texts.push(Vec::new(rt.alloc()))?;
                self.has_answer = true;
            }
        }
        let octets = self.texts.last_mut().ok_or(RowFault::NoRow)?;
        match head.meaning {
            Meaning::Octets => add_octets(octets, text)?,
            Meaning::Times(count) => {
                let octet = octet_of(rt.alloc(), text)?;
                octets.resize(octets.len().saturating_add(count), octet)?;
            }
            Meaning::File => octets.extend_from_slice(&fs::read(rt, text)?)?,
        }
        Ok(())
    }
}
