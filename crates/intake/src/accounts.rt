// The file of accounts: by which users and passwords peers are logged in to.
ghost use Rattle.std.specs.Prelude.{◌≡◌, [], IfErr, IfOk};
ghost use Rattle.std.specs.Option.{option_map};
ghost use Rattle.login.specs.Accounts.{first_entry, first_fault, lines_of, login_of, parts_of};
ghost use Rattle.intake.specs.Accounts.{IsUnreadAt};

use crate::run_error::{RunError, log_reason};
use feed_conf::PeerConf;
use feed_ends::FileError;
use log::{Log, warn};
use login::{Account, AccountLineFault, AccountsFault, account_for, check_accounts};
use std::alloc::{AllocError, Global};
use std::fs::{self, File};
use std::io::{self, ErrorKind};
use std::marker::Model;
use std::os::unix::fs::MetadataExt;
use std::rt::Files;
use std::str;

// What those may do with a file who are neither its owner nor in its group.
const OTHERS_MODE: u32 = 0o007;

/// The text of a file of accounts, no line of which is at fault. It has no `Debug`, since it has passwords.
///
/// Contracts see the text.
#[derive(Drop)]
pub struct Accounts {
    text: Vec<u8>,
}

impl Model for Accounts {
    ghost use Rattle.std.specs.Prelude.{◌≡◌, ℕ, List, None};
    ghost use Rattle.login.specs.Accounts.{first_fault, lines_of};

    ghost Value = { List ℕ };

    ghost view = { λ accounts. accounts.text.items };

    ghost invariant = { λ accounts. first_fault 1 (lines_of accounts.text.items) ≡ None };
}

impl Accounts {
    /// No accounts, as of an empty file.
    pub fn none(alloc: Global) -> Self
        ensures { result ≡ [] }
    {
        Accounts {
            text: Vec::new(alloc),
        }
    }
}

/// Reads the file of accounts at this path (`authinfo-file`).
///
/// # Errors
/// It cannot be read, is no regular file, or may be used by others; or one of its lines is at fault. Why is logged.
/// Memory was refused.
pub fn read_accounts<R: Log, F: AllocGlobal + Files<File = File>>(
    rt: &R,
    files: &F,
    path: &[u8],
) -> Result<Accounts, RunError>
    ensures { IfErr result (IsUnreadAt path.now) }
{
    let alloc = files.alloc();
    match text_at(files, path) {
        Ok(AccountsFile::Text(text)) => checked(rt, alloc, path, text),
        Ok(AccountsFile::Open) => {
            log_open(rt, path);
            Err(unread(alloc, path))
        }
        Err(error) => {
            log_reason(rt, path, &error);
            Err(unread(alloc, path))
        }
    }
}

// What lies at the path of a file of accounts.
#[derive(Drop)]
enum AccountsFile {
    Text(Vec<u8>),
    // A file that others may use.
    Open,
}

fn text_at<F: AllocGlobal + Files<File = File>>(
    files: &F,
    path: &[u8],
) -> io::Result<AccountsFile> {
    let Ok(path) = str::from_utf8(path) else {
        return Err(io::Error::from(ErrorKind::InvalidInput));
    };
    let there = fs::metadata(files, path)?;
    if !there.is_file() {
        let why = "it is not a regular file";
        return Err(io::Error::new(ErrorKind::InvalidInput, why));
    }
    if there.mode() & OTHERS_MODE != 0 {
        return Ok(AccountsFile::Open);
    }
    Ok(AccountsFile::Text(fs::read(files, path)?))
}

// The accounts of a text, unless a line is at fault, which is logged.
fn checked<R: Log>(rt: &R, alloc: Global, path: &[u8], text: Vec<u8>) -> Result<Accounts, RunError>
    ensures ok { IfOk result (λ accounts. accounts ≡ text.items) }
    ensures err { IfErr result (IsUnreadAt path.now) }
{
    match check_accounts(alloc, &text) {
        Ok(None) => Ok(Accounts { text }),
        Ok(Some(fault)) => {
            log_fault(rt, path, fault);
            Err(unread(alloc, path))
        }
        Err(_) => Err(RunError::OutOfResources),
    }
}

// The file at this path could not be read.
fn unread(alloc: Global, path: &[u8]) -> RunError
    ensures { IsUnreadAt path.now result }
{
    match Vec::from_slice(alloc, path) {
        Ok(path) => RunError::File(FileError::Unread(path)),
        Err(_) => RunError::OutOfResources,
    }
}

// Others may use the file of accounts at this path.
fn log_open<R: Log>(rt: &R, path: &[u8]) {
    let path = str::from_utf8(path).unwrap_or("");
    warn!(rt; "{}: others may use it, and it has passwords: chmod o= {}", path, path);
}

// A line of the file of accounts at this path is at fault. What is in it is not logged: it may be a password.
fn log_fault<R: Log>(rt: &R, path: &[u8], fault: AccountsFault) {
    let path = str::from_utf8(path).unwrap_or("");
    warn!(rt; "{}:{}: {}", path, fault.line, words_of(fault.kind));
}

// What is wrong with a line, and what to do.
fn words_of(fault: AccountLineFault) -> &'static str {
    match fault {
        AccountLineFault::BadHost => {
            "no host: write HOST:USER:PASSWORD, and [HOST] if HOST has a colon"
        }
        AccountLineFault::BadUser => {
            "no good user: write HOST:USER:PASSWORD, USER of 1 to 496 printable octets without blanks"
        }
        AccountLineFault::BadPassword => {
            "no good password: write HOST:USER:PASSWORD, PASSWORD of 1 to 496 printable octets without blanks"
        }
        AccountLineFault::BadStyle => {
            "more than HOST:USER:PASSWORD: only :authinfo may follow, and a password has no colon"
        }
    }
}

/// The account with which this peer is logged in to: the first of its host (`ip-name`), if there is one.
///
/// # Errors
/// Memory was refused.
pub fn account_of(
    alloc: Global,
    accounts: &Accounts,
    peer: &PeerConf,
) -> Result<Option<Account>, AllocError>
    ensures { IfOk result (λ found. option_map parts_of found ≡ option_map login_of
        (first_entry peer.now.ip_name.items (lines_of accounts.now))) }
{
    account_for(alloc, &accounts.text, &peer.ip_name)
}
