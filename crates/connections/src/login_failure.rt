// Why a login failed, in words.
use crate::close_reason::{Shown, shortened};
use login::{LoginStep, Refusal};
use std::alloc::Global;
use std::fmt::{self, Display, Formatter, Write};

/// Why a login failed: what it waited for, and the first octets of the peer's last line, which has no password in it.
#[derive(Drop)]
pub(crate) struct LoginFailure {
    step: LoginStep,
    refusal: Refusal,
    line: Vec<u8>,
}

impl LoginFailure {
    /// If memory is refused for the line, it is left out.
    pub fn new(alloc: Global, step: LoginStep, refusal: Refusal, line: &[u8]) -> Self {
        LoginFailure {
            step,
            refusal,
            line: Vec::from_slice(alloc, shortened(line)).unwrap_or(Vec::new(alloc)),
        }
    }
}

impl Display for LoginFailure {
    fn fmt<W: Write>(&self, f: &mut Formatter<W>) -> fmt::Result {
        match self.refusal {
            Refusal::Answer(code) if self.line.is_empty() => {
                write!(f, "{:03}{}", code, advice(self.step, code))
            }
            Refusal::Answer(code) => {
                write!(f, "{}{}", Shown(&self.line), advice(self.step, code))
            }
            Refusal::NoCode => write!(f, "no reply code: {}", Shown(&self.line)),
            Refusal::TooLong => write!(f, "line too long: {}", Shown(&self.line)),
            Refusal::Timeout => f.write_str("no answer in time"),
            Refusal::NoMemory => f.write_str("out of memory"),
        }
    }
}

// What is to be done about the code of an answer to USER or PASS (RFC 4643, section 2.3.1).
fn advice(step: LoginStep, code: u16) -> &'static str {
    match (step, code) {
        (_, 400) => ", it takes no articles for now",
        (_, 483) => ", it wants encryption, which is not supported",
        (LoginStep::Password, 481 | 482 | 502) | (LoginStep::User, 481 | 482) => {
            ", it refused the account: correct its line in authinfo-file"
        }
        (LoginStep::User, 500 | 501 | 502 | 503) => {
            ", it takes no user and password: remove its line from authinfo-file"
        }
        _ => "",
    }
}
