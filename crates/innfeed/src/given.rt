// What the program is given: its arguments, and its version.
use crate::version::version_text;
use cli::Order;
use cli_args::{Asked, read_args};
use std::alloc::{AllocError, Global};
use std::env;
use std::io::{self, ErrorKind};
use std::rt::{Env, Files};

const NOT_TEXT: &str = "an argument of the command line is not valid UTF-8";

/// What the program is given.
#[derive(Drop)]
pub struct Given {
    // None if one is no text.
    args: Option<Vec<String>>,
    version: String,
}

impl Given {
    /// The arguments of the command line, and the program's version.
    ///
    /// # Errors
    /// Memory was refused.
    pub fn by_system<R: AllocGlobal + Env + Files>(rt: &R) -> io::Result<Given> {
        Ok(Given {
            args: args_of(rt)?,
            version: version_text(rt)?,
        })
    }

    /// What the arguments ask for.
    ///
    /// # Errors
    /// Memory was refused.
    pub fn asked(&self, alloc: Global) -> Result<Asked<'_>, AllocError> {
        match &self.args {
            Some(args) => read_args(alloc, args.as_slice(), self.version.as_str()),
            None => Ok(Asked {
                order: Order::Mistake(String::from_str(alloc, NOT_TEXT)?),
                has_log_time: false,
                unread: String::new(alloc),
            }),
        }
    }
}

fn args_of<R: AllocGlobal + Env>(rt: &R) -> io::Result<Option<Vec<String>>> {
    match env::args(rt) {
        Ok(args) => Ok(Some(args.collect(rt.alloc())?)),
        Err(error) if error.kind() == ErrorKind::OutOfMemory => Err(error),
        Err(_) => Ok(None),
    }
}
