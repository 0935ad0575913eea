// The buffers of CNFS that lines name, on their way from the intake to the flusher.
ghost use Rattle.std.specs.Prelude.{◌≡◌, Contains, OnErr, OnOk};
ghost use Rattle.innd_storage.specs.declared.buffer_name.BufferName.{BufferName};

use funnel::Token;
use innd_storage::{BufferName, StorageToken, read_token};
use std::alloc::{AllocError, Global};
use std::mem;
use std::sync::{Mutex, Wait};

/// The buffers of CNFS that the tokens of lines name: the intake adds them before it takes the lines, and the flusher
/// takes them out, and syncs them, before it acknowledges these lines.
#[derive(Drop)]
pub struct NamedBuffers {
    alloc: Global,
    names: Mutex<Vec<BufferName>>,
}

impl NamedBuffers {
    /// None yet.
    pub fn new(alloc: Global) -> Self {
        NamedBuffers {
            alloc,
            names: Mutex::new(Vec::new(alloc)),
        }
    }

    /// Adds the buffer in which the article of this token lies, if that is in CNFS.
    ///
    /// # Errors
    /// Memory was refused.
    pub fn add<R: Wait>(&self, rt: &R, token: &Token) -> Result<(), AllocError> {
        match read_token(token) {
            Ok(Some(StorageToken::Cnfs(place))) => add(&mut self.names.lock(rt), place.buffer),
            _ => Ok(()),
        }
    }

    /// Takes out all that were added since the last time.
    pub fn take<R: Wait>(&self, rt: &R) -> Vec<BufferName> {
        mem::replace(&mut *self.names.lock(rt), Vec::new(self.alloc))
    }
}

// Adds a name, unless it is there. There are few: what one flush acknowledges lies in the buffers that innd fills.
fn add(names: &mut Vec<BufferName>, name: BufferName) -> Result<(), AllocError>
    ensures named { OnOk result (Contains names.new.items name) }
    ensures keeps { OnOk result ((other : BufferName) → Contains names.old.items other
        → Contains names.new.items other) }
    ensures unchanged { OnErr result (names.new.items ≡ names.old.items) }
{
    if !names.contains(&name) {
        names.push(name)?;
    }
    Ok(())
}
