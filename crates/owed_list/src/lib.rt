//! The list of what is owed, read from the tapes without writing, even while another process feeds; and what waits for
//! names that no peer has.
//!
//! May read the backlog directory and the files of the tapes, and ask for a shared lock of the directory; it writes
//! nothing but the list and the log. The crate above calls [`list_owed`], and [`log_strangers`] at the start of a run.
//! Each tape is read whole into memory (`snapshot`), and read again if a run has rotated it meanwhile (`reading`); the
//! ledger of what was read is that of `recovery`. It is proved which names are no peer's (`strangers`) and which a list
//! has (`wanted`), what each line of a list is (`lines`) and of a summary (`summary`), and that `first_record` is what
//! it says; every other call is proved to be safe and to return.
#![tactic(auto)]

mod directory;
mod each_article;
mod fault;
mod first_record;
mod kept;
mod lines;
mod list;
mod lister;
mod reading;
mod snapshot;
mod strangers;
mod summary;
mod totals;
mod unread;
mod waiting;
mod walk;
mod wanted;

pub use list::list_owed;
pub use waiting::log_strangers;
