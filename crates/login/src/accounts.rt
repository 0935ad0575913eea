// The accounts in the text of a file.
ghost use Rattle.std.specs.Prelude.{◌≡◌, IfOk, map};
ghost use Rattle.std.specs.Option.{option_map};
ghost use Rattle.login.specs.Accounts.{first_entry, first_fault, lines_of, login_of, parts_of};

use crate::account::Account;
use crate::account_line::{AccountLine, AccountLineFault, read_account_line};
use std::alloc::{AllocError, Global};

/// A line at fault.
#[derive(Clone, Copy, Debug, PartialEq, Eq)]
pub struct AccountsFault {
    /// Its number, from 1 up.
    pub line: u64,
    pub kind: AccountLineFault,
}

/// The first line of this text that is at fault, if there is one.
///
/// # Errors
/// Memory was refused.
pub fn check_accounts(alloc: Global, text: &[u8]) -> Result<Option<AccountsFault>, AllocError>
    ensures { IfOk result (λ fault. fault ≡ first_fault 1 (lines_of text.now)) }
{
    let lines = lines_of(alloc, text)?;
    for index in 0..lines.len() {
        if let Err(kind) = read_account_line(lines[index]) {
            return Ok(Some(AccountsFault {
                line: index as u64 + 1,
                kind,
            }));
        }
    }
    Ok(None)
}

/// The first account of this text that is for this host, if there is one.
///
/// # Errors
/// Memory was refused.
pub fn account_for(alloc: Global, text: &[u8], host: &[u8]) -> Result<Option<Account>, AllocError>
    ensures { IfOk result (λ found. option_map parts_of found
        ≡ option_map login_of (first_entry host.now (lines_of text.now))) }
{
    let lines = lines_of(alloc, text)?;
    for index in 0..lines.len() {
        if let Ok(Some(found)) = read_account_line(lines[index])
            && found.host == host
        {
            return Ok(Some(Account::of(alloc, &found)?));
        }
    }
    Ok(None)
}

fn lines_of(alloc: Global, text: &[u8]) -> Result<Vec<&[u8]>, AllocError>
    ensures { IfOk result (λ lines. map (λ line. line.now) lines.items ≡ lines_of text.now) }
{
    text.split(|octet| *octet == b'\n').collect(alloc)
}
