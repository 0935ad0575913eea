// Lines of the file of accounts.
ghost use Rattle.std.specs.Prelude.{◌≡◌, ◌≤◌, length};
ghost use Rattle.std.specs.List.{list_all};
ghost use Rattle.std.specs.Option.{option_map};
ghost use Rattle.login.specs.Account.{is_argument, is_printable};
ghost use Rattle.login.specs.Accounts.{account_at, account_in, after, before, bracketed, entry_given, from_colon};
ghost use Rattle.login.specs.Accounts.{host_of, is_blank, is_host, is_other, is_style, place_of, with_host, with_parts};

use memchr::memchr;
use thiserror::Error;

/// The most octets of a user or a password: with them a command has 512 octets with its end (RFC 3977, section 3.1).
pub const ARGUMENT_MAX_OCTETS: usize = 496;

/// A line with an account.
#[derive(Clone, Copy)]
pub struct AccountLine<'a> {
    /// The host for which it is, without brackets.
    pub host: &'a [u8],
    pub user: &'a [u8],
    pub password: &'a [u8],
}

/// Why a line is refused.
#[derive(Clone, Copy, Debug, PartialEq, Eq, Error)]
pub enum AccountLineFault {
    /// No host stands before a colon, or not after its brackets, or one of its octets is not printable ASCII.
    #[error("BadHost")]
    BadHost,
    /// The user is empty, has an octet that is not printable ASCII, or is longer than 496 octets.
    #[error("BadUser")]
    BadUser,
    /// The password is missing or empty, has an octet that is not printable ASCII, or is longer than 496 octets.
    #[error("BadPassword")]
    BadPassword,
    /// Something else than `:authinfo` follows the password.
    #[error("BadStyle")]
    BadStyle,
}

/// Reads a line `host:user:password` or `host:user:password:authinfo`, given without its LF (passwd.nntp(5)); `None` if
/// it has no account: a comment, or a line of blanks. A host that has a colon stands in brackets, others may.
///
/// # Errors
/// The first fault in the order of [`AccountLineFault`].
pub fn read_account_line(line: &[u8]) -> Result<Option<AccountLine<'_>>, AccountLineFault>
    ensures { entry_given result ≡ account_in line.now }
{
    if is_other(line) {
        return Ok(None);
    }
    match host_of(line) {
        Some((host, behind)) => account_at(host, behind),
        None => Err(AccountLineFault::BadHost),
    }
}

fn is_other(line: &[u8]) -> bool
    ensures { result ≡ is_other line.now }
{
    line.starts_with(b"#") || are_blank(line)
}

fn are_blank(line: &[u8]) -> bool
    ensures { result ≡ list_all is_blank line.now }
{
    line.iter().all(|octet| *octet == b' ' || *octet == b'\t')
}

// The host, and what follows its colon.
fn host_of(line: &[u8]) -> Option<(&[u8], &[u8])>
    ensures { option_map (λ found. (found.0.now, found.1.now)) result ≡ host_of line.now }
{
    if line.starts_with(b"[") {
        bracketed(&line[1..])
    } else {
        with_host(before(b':', line), after(b':', line))
    }
}

fn bracketed(text: &[u8]) -> Option<(&[u8], &[u8])>
    ensures { option_map (λ found. (found.0.now, found.1.now)) result ≡ bracketed text.now }
{
    let behind = after(b']', text);
    if behind.starts_with(b":") {
        with_host(before(b']', text), &behind[1..])
    } else {
        None
    }
}

fn with_host<'a>(host: &'a [u8], behind: &'a [u8]) -> Option<(&'a [u8], &'a [u8])>
    ensures { option_map (λ found. (found.0.now, found.1.now)) result
        ≡ with_host host.now behind.now }
{
    if is_host(host) {
        Some((host, behind))
    } else {
        None
    }
}

fn is_host(octets: &[u8]) -> bool
    ensures { result ≡ is_host octets.now }
{
    !octets.is_empty() && are_printable(octets)
}

// Whether they may be sent as a user or a password (RFC 4643, section 2.3).
pub(crate) fn is_argument(octets: &[u8]) -> bool
    ensures { result ≡ is_argument octets.now }
{
    !octets.is_empty() && octets.len() <= ARGUMENT_MAX_OCTETS && are_printable(octets)
}

fn are_printable(octets: &[u8]) -> bool
    ensures { result ≡ list_all is_printable octets.now }
{
    octets.iter().all(|octet| 33 <= *octet && *octet <= 126)
}

// The account of this host, whose user begins here.
fn account_at<'a>(
    host: &'a [u8],
    behind: &'a [u8],
) -> Result<Option<AccountLine<'a>>, AccountLineFault>
    ensures { entry_given result
        ≡ with_parts host.now (before 58 behind.now) (after 58 behind.now) }
{
    let (user, rest) = (before(b':', behind), after(b':', behind));
    let password = before(b':', rest);
    if !is_argument(user) {
        return Err(AccountLineFault::BadUser);
    }
    if !is_argument(password) {
        return Err(AccountLineFault::BadPassword);
    }
    if !is_style(from_colon(rest)) {
        return Err(AccountLineFault::BadStyle);
    }
    Ok(Some(AccountLine {
        host,
        user,
        password,
    }))
}

fn is_style(text: &[u8]) -> bool
    ensures { result ≡ is_style text.now }
{
    text.is_empty() || text == b":authinfo".as_slice()
}

// What comes before the first such octet, or all.
fn before(octet: u8, text: &[u8]) -> &[u8]
    ensures { result.now ≡ before octet text.now }
{
    &text[..place_of(octet, text)]
}

// What comes after the first such octet, or nothing.
fn after(octet: u8, text: &[u8]) -> &[u8]
    ensures { result.now ≡ after octet text.now }
{
    let at = place_of(octet, text);
    if at < text.len() {
        &text[at + 1..]
    } else {
        b""
    }
}

// The first colon and what follows it, or nothing.
fn from_colon(text: &[u8]) -> &[u8]
    ensures { result.now ≡ from_colon text.now }
{
    &text[place_of(b':', text)..]
}

// Where an octet stands first, or how many octets there are.
fn place_of(octet: u8, octets: &[u8]) -> usize
    ensures value { result ≡ place_of octet octets.now }
    ensures within { result ≤ length octets.now }
{
    memchr(octet, octets).unwrap_or(octets.len())
}
