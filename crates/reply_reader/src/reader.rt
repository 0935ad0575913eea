// Replies from pieces of any size.
ghost use Rattle.std.specs.Prelude.{◌≡◌, ◌≤◌, ◌↔◌, ◌++◌, [], ℕ, List, IfOk, IfSome, IsOk};
ghost use Rattle.std.specs.Prelude.{IsTrue, OnOk, OnErr};
ghost use Rattle.reply_reader.specs.Stream.{AtWork, Broken, Given, IsShort, StandsFor, Working, after_feed};
ghost use Rattle.reply_reader.specs.Stream.{longest_reply};
ghost use Rattle.reply_reader.specs.Next.{GivesReply, NextIs, RefusesNext, given_of, given_by};

use crate::NoMemory;
use crate::fault::ReplyFault;
use crate::line::{Reply, read_reply};
use crate::unread::Unread;
use std::alloc::Global;
use std::marker::Model;

/// The length of the longest reply line, in octets, CR and LF included.
pub const REPLY_MAX_OCTETS: usize = 2048;

/// A reader of reply lines, fed in pieces of any size (RFC 3977, section 3.1).
#[derive(Debug, Drop)]
pub struct ReplyReader {
    stage: ReaderStage,
}

#[derive(Debug, Drop)]
enum ReaderStage {
    Working(Unread),
    /// A fault was returned.
    Broken,
}

impl Model for ReplyReader {
    ghost use Rattle.reply_reader.specs.Stream.{Held};

    ghost Value = { Held };

    ghost use Rattle.reply_reader.specs.Stage.{held_of};

    ghost view = { λ reader. held_of reader.stage };
}

impl ReplyReader {
    /// A reader that was fed nothing. It allocates only when it is fed, from `alloc`.
    pub fn new(alloc: Global) -> Self
        ensures holds { result ≡ Working [] }
        ensures stands { StandsFor result [] [] }
    {
        ReplyReader {
            stage: ReaderStage::Working(Unread::new(alloc)),
        }
    }

    /// Takes in more octets. After a fault of [`ReplyReader::next`] it drops them, and takes no memory.
    ///
    /// # Errors
    /// `NoMemory` if memory was refused: the reader is unchanged, and the octets are not taken in.
    pub fn feed(&mut self, piece: &[u8]) -> Result<(), NoMemory>
        ensures fed { OnOk result (self.new ≡ after_feed self.old piece.now) }
        ensures stands { OnOk result
            ((fed : List ℕ) (given : List Given) → StandsFor self.old fed given
            → StandsFor self.new (fed ++ piece.now) given) }
        ensures unchanged { OnErr result (self.new ≡ self.old) }
        ensures broken { self.old ≡ Broken → IsOk result }
    {
        match &mut self.stage {
            ReaderStage::Working(unread) => unread.feed(piece),
            ReaderStage::Broken => Ok(()),
        }
    }

    /// Reads the first unread line; `None` if no whole line is unread.
    ///
    /// # Errors
    /// [`ReplyFault::TooLong`] if the first 2,048 unread octets have no LF, even if a whole line is unread; otherwise
    /// [`ReplyFault::NoCode`] if the first unread line is whole and does not begin with three digits. After either,
    /// each call returns [`ReplyFault::Failed`]. [`ReplyFault::NoMemory`] if it is a reply line and memory was
    /// refused: the reader is unchanged.
    pub fn next(&mut self) -> Result<Option<Reply>, ReplyFault>
        ensures stands { (fed : List ℕ) (given : List Given) → StandsFor self.old fed given
            → StandsFor self.new fed (given ++ given_by result) }
        ensures some { IfOk result
            (λ next. IfSome next (λ reply. GivesReply self.old self.new (given_of reply))) }
        ensures none { (result ≡ Ok None) ↔ AtWork self.old IsShort }
        ensures unchanged { result ≡ Ok None → self.new ≡ self.old }
        ensures refuses { RefusesNext self.old self.new result }
    {
        match &mut self.stage {
            ReaderStage::Working(unread) => match next_reply(unread) {
                Ok(next) => Ok(next),
                Err(fault) => match fault {
                    ReplyFault::NoMemory => Err(fault),
                    _ => {
                        self.stage = ReaderStage::Broken;
                        Err(fault)
                    }
                },
            },
            ReaderStage::Broken => Err(ReplyFault::Failed),
        }
    }
}

// Reads the first line of the octets that wait, and drops it from them.
fn next_reply(unread: &mut Unread) -> Result<Option<Reply>, ReplyFault>
    ensures { NextIs unread.old unread.new result }
{
    let Some(end) = unread.first_end() else {
        return if is_too_many(unread.len()) {
            Err(ReplyFault::TooLong)
        } else {
            Ok(None)
        };
    };
    if is_too_many(end) {
        return Err(ReplyFault::TooLong);
    }
    let reply = read_reply(unread.alloc(), unread.prefix(end))?;
    unread.skip(end + 1);
    Ok(Some(reply))
}

// Whether this many octets without an LF are too many.
fn is_too_many(len: usize) -> bool
    ensures { IsTrue result ↔ (longest_reply ≤ len) }
{
    len >= REPLY_MAX_OCTETS
}
