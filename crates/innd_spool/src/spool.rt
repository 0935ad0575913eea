// The store.
ghost use Rattle.std.specs.Prelude.{◌≡◌, ◌≤◌, IfOk, IsSome, IsTrue, Err, Ok, Some, length};
ghost use Rattle.std.specs.BTreeMap.{get};
ghost use Rattle.std.specs.IoError.{error_kind};
ghost use Rattle.std.specs.Ordering.{nat_cmp};
ghost use Rattle.article_store.specs.Finds.{IsFound};
ghost use Rattle.innd_storage.specs.Tokens.{storage_token_of};
ghost use Rattle.innd_storage.specs.declared.token.StorageToken.{StorageToken};
ghost use Rattle.innd_spool.specs.Files.{IsRead, fault_of};
ghost use Rattle.innd_spool.specs.Spools.{IsKnown, IsKnownPlace, KeepsPlaces};
ghost use Rattle.innd_spool.specs.Texts.{IsNamed};

use crate::article_file::read_article;
use crate::buffer_article::Stored;
use crate::buffers::Buffers;
use crate::faults::{fault_of, is_directory, named, no_place};
use crate::files::{AtPath, has_articles, read_path, set_path};
use crate::groups::GroupMap;
use crate::texts::{Form, as_article, judge, too_long};
use article_store::{Articles, Found, SpoolDirectory, StoreFault, Unsendable};
use funnel::{MsgId, Token};
use innd_storage::{
    CnfsToken, StorageToken, TimehashToken, TradspoolToken, read_token, timehash_path,
};
use std::alloc::{AllocError, Global};
use std::fs::File;
use std::io::{self, ErrorKind};
use std::rt::Files;
use std::str;

/// Articles in innd's own spool, by the tokens of its storage API (tradspool, timehash, CNFS), and in a folder of
/// copies for all other tokens.
///
/// The folder is also asked for articles that innd no longer has, and for those of methods that are not read here. A
/// file of tradspool or timehash is opened, read and closed by each fetch; a buffer of CNFS stays open. The
/// octets of an article are read into room that is reused, and copied from there once.
#[derive(Drop)]
pub struct InndSpool<F: Files<File = File> + Drop> {
    files: F,
    alloc: Global,
    // The directory of innd's articles, with a slash at its end.
    articles: String,
    groups: GroupMap,
    buffers: Buffers,
    // The directory of copies, with a slash at its end.
    folder: String,
    path: String,
    room: Vec<u8>,
    // Whether the last fetch has seen that innd no longer has the article where it was.
    is_seen_gone: bool,
    // The error of the last fetch that failed.
    reason: Option<io::Error>,
    // The cause of the last fetch that found a text that can't be sent, if it has a name.
    cause: Option<Unsendable>,
}

impl<F: Files<File = File> + Drop> InndSpool<F> {
    /// A store over innd's spool and a folder of copies. `spool` is the path that inn.conf(5) calls `pathspool`,
    /// `cycbuffs` that of innd's `cycbuff.conf`, if it keeps articles in CNFS, and `folder` that of the copies. Only
    /// fetches look at files.
    ///
    /// # Errors
    /// `NoMemory` if memory was refused.
    pub fn new(
        files: F,
        alloc: Global,
        spool: &str,
        cycbuffs: Option<&str>,
        folder: &str,
    ) -> Result<Self, AllocError> {
        let spool = with_slash(alloc, spool)?;
        let mut articles = spool.clone()?;
        articles.push_str("articles/")?;
        Ok(InndSpool {
            files,
            alloc,
            articles,
            groups: GroupMap::new(alloc, spool.as_str())?,
            buffers: Buffers::new(alloc, cycbuffs)?,
            folder: with_slash(alloc, folder)?,
            path: String::new(alloc),
            room: Vec::new(alloc),
            is_seen_gone: false,
            reason: None,
            cause: None,
        })
    }

    // What innd has at the place that its token means. `Gone`: it no longer has the article.
    fn at_innd(&mut self, place: &StorageToken, id: &MsgId) -> io::Result<Found>
        ensures sendable { IfOk result IsFound }
        ensures named { IfOk result (IsNamed id.now) }
        ensures known { result ≡ Ok Found.Gone → IsKnownPlace self.new place.now }
    {
        match place {
            StorageToken::Tradspool(token) => self.in_tradspool(token, id),
            StorageToken::Timehash(token) => self.in_timehash(token, id),
            StorageToken::Cnfs(token) => self.in_cnfs(token, id),
        }
    }

    fn in_tradspool(&mut self, token: &TradspoolToken, id: &MsgId) -> io::Result<Found>
        ensures sendable { IfOk result IsFound }
        ensures named { IfOk result (IsNamed id.now) }
        ensures known { result ≡ Ok Found.Gone
            → IsSome (get nat_cmp self.new.groups.groups token.now.group) }
    {
        self.groups.find(&self.files, self.alloc, token.group)?;
        let name = self.groups.path_of(self.alloc, token)?;
        self.in_file(name.as_str(), id)
    }

    fn in_timehash(&mut self, token: &TimehashToken, id: &MsgId) -> io::Result<Found>
        ensures sendable { IfOk result IsFound }
        ensures named { IfOk result (IsNamed id.now) }
    {
        let name = timehash_path(token);
        match str::from_utf8(&name) {
            Ok(name) => self.in_file(name, id),
            Err(_) => Err(io::Error::from(ErrorKind::InvalidFilename)),
        }
    }

    // The article in a file below the directory of innd's articles.
    fn in_file(&mut self, name: &str, id: &MsgId) -> io::Result<Found>
        ensures sendable { IfOk result IsFound }
        ensures named { IfOk result (IsNamed id.now) }
        ensures keeps { KeepsPlaces self.old self.new }
    {
        set_path(&mut self.path, self.articles.as_str(), name)?;
        let path = self.path.as_str();
        match read_article(self.alloc, &self.files, path, name, &mut self.room)? {
            AtPath::Nothing => Ok(Found::Gone),
            AtPath::Directory => Err(named(self.alloc, name, is_directory())),
            AtPath::File(count) => self.judge(count, Form::ByFirstLine, id),
        }
    }

    fn in_cnfs(&mut self, token: &CnfsToken, id: &MsgId) -> io::Result<Found>
        ensures sendable { IfOk result IsFound }
        ensures named { IfOk result (IsNamed id.now) }
        ensures known { result ≡ Ok Found.Gone → IsSome self.new.buffers.path }
    {
        if self.buffers.is_open(&token.buffer) {
            self.in_kept_buffer(token, id)
        } else {
            self.in_fresh_buffer(token, id)
        }
    }

    // The article in a buffer that was opened by an earlier fetch. What its file shows is believed only if it is the
    // article: the buffer may be in another file by now.
    fn in_kept_buffer(&mut self, token: &CnfsToken, id: &MsgId) -> io::Result<Found>
        ensures sendable { IfOk result IsFound }
        ensures named { IfOk result (IsNamed id.now) }
        ensures known { result ≡ Ok Found.Gone → IsSome self.new.buffers.path }
    {
        match self.in_open_buffer(token, id) {
            Ok(Found::Gone) => self.in_reopened_buffer(token, id),
            Ok(found) => Ok(found),
            Err(_) => self.in_reopened_buffer(token, id),
        }
    }

    fn in_reopened_buffer(&mut self, token: &CnfsToken, id: &MsgId) -> io::Result<Found>
        ensures sendable { IfOk result IsFound }
        ensures named { IfOk result (IsNamed id.now) }
        ensures known { result ≡ Ok Found.Gone → IsSome self.new.buffers.path }
    {
        self.buffers.close(&token.buffer);
        self.in_fresh_buffer(token, id)
    }

    // The article in a buffer whose file is opened anew, and is kept open if it can be read.
    fn in_fresh_buffer(&mut self, token: &CnfsToken, id: &MsgId) -> io::Result<Found>
        ensures sendable { IfOk result IsFound }
        ensures named { IfOk result (IsNamed id.now) }
        ensures known { result ≡ Ok Found.Gone → IsSome self.new.buffers.path }
    {
        self.buffers.open(&self.files, &token.buffer)?;
        match self.in_open_buffer(token, id) {
            Ok(found) => Ok(found),
            Err(error) => {
                self.buffers.close(&token.buffer);
                Err(error)
            }
        }
    }

    fn in_open_buffer(&mut self, token: &CnfsToken, id: &MsgId) -> io::Result<Found>
        ensures sendable { IfOk result IsFound }
        ensures named { IfOk result (IsNamed id.now) }
        ensures keeps { KeepsPlaces self.old self.new }
    {
        match self.buffers.read_stored(token, &mut self.room)? {
            Stored::Gone => Ok(Found::Gone),
            Stored::TooLong => Ok(too_long(&mut self.cause)),
            Stored::Octets(count) => self.judge(count, Form::Wire, id),
        }
    }

    // What so many octets at the front of the room are for this message-id.
    fn judge(&mut self, count: usize, form: Form, id: &MsgId) -> io::Result<Found>
        requires { count ≤ length self.old.room.items }
        ensures sendable { IfOk result IsFound }
        ensures named { IfOk result (IsNamed id.now) }
        ensures keeps { KeepsPlaces self.old self.new }
    {
        let octets = &self.room.as_slice()[..count];
        let found = judge(self.alloc, octets, form, id, &mut self.cause)?;
        Ok(found)
    }

    // What so many octets at the front of the room are, whatever message-id they have.
    fn as_article(&mut self, count: usize, form: Form) -> Result<Found, AllocError>
        requires { count ≤ length self.old.room.items }
        ensures { IfOk result IsFound }
    {
        let octets = &self.room.as_slice()[..count];
        as_article(self.alloc, octets, form, &mut self.cause)
    }

    // What the folder has under a token, if its message-id is this one.
    fn in_folder(&mut self, token: &Token, form: Form, id: &MsgId) -> io::Result<Found>
        ensures sendable { IfOk result IsFound }
        ensures named { IfOk result (IsNamed id.now) }
        ensures keeps { KeepsPlaces self.old self.new }
    {
        match self.read_folder(token, form)? {
            AtPath::File(count) => self.judge(count, form, id),
            _ => Ok(Found::Gone),
        }
    }

    // Reads the token's file in the folder, in this form, into the room. A token is ASCII, so its octets are text.
    fn read_folder(&mut self, token: &Token, form: Form) -> io::Result<AtPath>
        ensures within { IfOk result (IsRead self.new.room.items) }
        ensures keeps { KeepsPlaces self.old self.new }
    {
        let Ok(name) = str::from_utf8(token.bytes()) else {
            return Err(io::Error::from(ErrorKind::InvalidFilename));
        };
        set_path(&mut self.path, self.folder.as_str(), name)?;
        read_path(&self.files, self.path.as_str(), form, &mut self.room)
    }

    // The folder's answer, with the reason kept if it has none.
    fn folder_answer(&mut self, token: &Token, form: Form, id: &MsgId) -> Result<Found, StoreFault>
        ensures sendable { IfOk result IsFound }
        ensures named { IfOk result (IsNamed id.now) }
        ensures keeps { KeepsPlaces self.old self.new }
    {
        match self.in_folder(token, form, id) {
            Ok(found) => Ok(found),
            Err(error) => self.fail(error),
        }
    }

    // Keeps the reason why a fetch fails.
    fn fail(&mut self, error: io::Error) -> Result<Found, StoreFault>
        ensures fails { result ≡ Err (fault_of (error_kind error)) }
        ensures keeps { KeepsPlaces self.old self.new }
    {
        let fault = fault_of(error.kind());
        self.reason = Some(error);
        Err(fault)
    }
}

impl<F: Files<File = File> + Drop> Articles for InndSpool<F> {
    /// The folder's article of this token. What innd has under it may be another article, and only its message-id
    /// could tell: see [`SpoolDirectory::fetch_for`].
    ///
    /// # Errors
    /// Those of [`SpoolDirectory::fetch_for`].
    fn fetch(&mut self, token: &Token) -> Result<Found, StoreFault>
        ensures sendable { IfOk result IsFound }
    {
        let form = folder_form(token);
        match self.read_folder(token, form) {
            Ok(AtPath::File(count)) => Ok(self.as_article(count, form)?),
            Ok(_) => Ok(Found::Gone),
            Err(error) => self.fail(error),
        }
    }
}

impl<F: Files<File = File> + Drop> SpoolDirectory for InndSpool<F> {
    fn fetch_for(&mut self, token: &Token, id: &MsgId) -> Result<Found, StoreFault>
        ensures sendable { IfOk result IsFound }
        ensures named { IfOk result (IsNamed id.now) }
        ensures known { result ≡ Ok Found.Gone → IsKnown self.new (storage_token_of token.now) }
        ensures seen { result ≡ Ok Found.Gone → (place : StorageToken)
            → storage_token_of token.now ≡ Ok (Some place) → IsTrue self.new.is_seen_gone }
    {
        self.is_seen_gone = false;
        match read_token(token) {
            Ok(None) => self.folder_answer(token, Form::Plain, id),
            Ok(Some(place)) => match self.at_innd(&place, id) {
                Ok(Found::Gone) => {
                    self.is_seen_gone = true;
                    self.folder_answer(token, Form::ByFirstLine, id)
                }
                Ok(found) => Ok(found),
                Err(error) => self.fail(error),
            },
            Err(fault) => match self.folder_answer(token, Form::ByFirstLine, id) {
                Ok(Found::Gone) => self.fail(no_place(fault)),
                answer => answer,
            },
        }
    }

    /// Whether the last fetch has seen that the article is gone from where it was: from a buffer of CNFS, or from a
    /// directory of its own. Else whether the directory of innd's articles is there, and has an entry: the mount point
    /// of a file system that is not mounted has none, nor may a site have any that stores all articles in CNFS.
    fn is_there(&self) -> bool
        ensures { IsTrue self.now.is_seen_gone → IsTrue result }
    {
        self.is_seen_gone || has_articles(&self.files, self.articles.as_str()).unwrap_or(false)
    }

    fn take_reason(&mut self) -> Option<io::Error> {
        self.reason.take()
    }

    fn take_cause(&mut self) -> Option<Unsendable> {
        self.cause.take()
    }
}

// How articles lie in the folder: copies under innd's tokens may be links to its files.
fn folder_form(token: &Token) -> Form {
    match read_token(token) {
        Ok(None) => Form::Plain,
        _ => Form::ByFirstLine,
    }
}

// The path of a directory, with a slash at its end.
fn with_slash(alloc: Global, directory: &str) -> Result<String, AllocError> {
    let mut path = String::from_str(alloc, directory)?;
    path.push_str("/")?;
    Ok(path)
}
