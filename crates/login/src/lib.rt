//! Logins: the exchange by which a peer is logged in to (AUTHINFO USER and PASS, RFC 4643), and the file of accounts.
//!
//! May touch nothing but memory; it stands on `reply_reader` for what a reply line is, and on `funnel` for its end.
//! The crates above make a [`Login`] of an [`Account`], feed it the octets that come before the connection's own
//! machine gets any, and hand on what it kept for that machine. Whatever octets came, in whatever pieces, a `Login`
//! stands for them (`specs/Exchange.antt`). [`account_for`] finds the account for a host in the text of a file, and
//! [`check_accounts`] its first line at fault (`specs/Accounts.antt`).
#![tactic(auto)]

mod account;
mod account_line;
mod accounts;
mod login;
mod step;

pub use account::Account;
pub use account_line::{AccountLine, AccountLineFault, read_account_line};
pub use accounts::{AccountsFault, account_for, check_accounts};
pub use login::Login;
pub use step::{LoginEnd, LoginStep, Refusal};
