// Want of file descriptors, which is no fault of an article.
use funnel::Token;
use std::fmt::{self, Display, Formatter, Write};
use std::io;

// EMFILE and ENFILE (errno(3)).
const PROCESS_ERRNO: i32 = 24;

const SYSTEM_ERRNO: i32 = 23;

/// Who has no file descriptor left.
#[derive(Clone, Copy, Debug, PartialEq, Eq)]
pub(crate) enum Lacking {
    Process,
    System,
}

/// Who has no file descriptor left, if this error says so.
pub(crate) fn lack_of(error: &io::Error) -> Option<Lacking> {
    match error.raw_os_error()? {
        PROCESS_ERRNO => Some(Lacking::Process),
        SYSTEM_ERRNO => Some(Lacking::System),
        _ => None,
    }
}

/// The article that could not be read for this reason. `None`: no file descriptor was left to open it.
pub(crate) fn unread_article<'a>(
    token: &'a Token,
    reason: Option<&io::Error>,
) -> Option<&'a Token> {
    match reason.and_then(lack_of) {
        Some(_) => None,
        None => Some(token),
    }
}

/// That there is no file descriptor left, the system's words, and what to do.
#[derive(Clone, Copy)]
pub(crate) struct LackedBy<'a> {
    pub lacked: Lacking,
    pub error: &'a io::Error,
}

impl Display for LackedBy<'_> {
    fn fmt<W: Write>(&self, f: &mut Formatter<W>) -> fmt::Result {
        let (whose, cure) = match self.lacked {
            Lacking::Process => (
                "this process has",
                "raise its limit (LimitNOFILE, ulimit -n)",
            ),
            Lacking::System => ("the system has", "raise fs.file-max"),
        };
        write!(
            f,
            "{} no file descriptor left: {}; {}",
            whose, self.error, cure
        )
    }
}
