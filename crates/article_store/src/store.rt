// The trait of stores of articles, and what a store hands out.
ghost use Rattle.std.specs.Prelude.{◌↔◌, ℕ, List, Option, IfOk};
ghost use Rattle.article_store.specs.Finds.{IsFound, IsSaidBy};

use crate::unsendable::Unsendable;
use bytes::Bytes;
use funnel::{MsgId, Token};
use std::alloc::AllocError;
use std::io;
use thiserror::Error;

/// What a store has under a token.
#[derive(Debug, Drop)]
pub enum Found {
    /// The text of the article, which has a written form: `dot_codec::to_block` makes its block.
    Article(Bytes),
    /// There is no such article, or no longer.
    Gone,
    /// There is an article, but its text has no written form.
    Unsendable,
}

/// Why a store could not hand out what it has under a token.
#[derive(Clone, Copy, Debug, PartialEq, Eq, Error)]
pub enum StoreFault {
    /// The disk could not be read.
    #[error("Disk")]
    Disk,
    /// Memory was refused.
    #[error("NoMemory")]
    NoMemory,
}

impl From<AllocError> for StoreFault {
    ghost use Rattle.std.specs.Prelude.{◌≡◌};
    ghost use Rattle.article_store.specs.declared.store.StoreFault.TheVariants.{NoMemory};

    ghost from_gives = { λ _ fault. fault ≡ NoMemory };

    fn from(_: AllocError) -> Self {
        Self::NoMemory
    }
}

/// A store of article texts under their tokens.
pub trait Articles {
    /// What the store says of a token: that this text is under it, or with `None` that no text is. A store whose
    /// texts lie outside the program says nothing, as the default does: that holds for all texts.
    ghost says: { Self → List ℕ → Option (List ℕ) → Type 0 } = { λ _ _ _. Unit {0} };

    /// What the store has under the token. What it says of its tokens stays as it was.
    ///
    /// # Errors
    /// [`StoreFault::Disk`] if the store lies on a disk that could not be read.
    /// [`StoreFault::NoMemory`] if memory was refused.
    fn fetch(&mut self, token: &Token) -> Result<Found, StoreFault>
        ensures sendable { IfOk result IsFound }
        ensures said { IfOk result (IsSaidBy (says self.old token.now)) }
        ensures unchanged { (other : List ℕ) (text : Option (List ℕ)) → says self.old other text
            ↔ says self.new other text };
}

/// A store whose articles lie below a directory that may itself be missing, as when a file system is not mounted.
pub trait SpoolDirectory: Articles {
    /// The article of this token with this message-id. A store whose tokens may come to name other articles, as those
    /// of a buffer that is written in cycles do, hands out none with another id.
    ///
    /// # Errors
    /// Those of [`Articles::fetch`].
    fn fetch_for(&mut self, token: &Token, id: &MsgId) -> Result<Found, StoreFault>
        ensures sendable { IfOk result IsFound };

    /// Whether that directory is there. If it is not, `Gone` says nothing about an article.
    fn is_there(&self) -> bool;

    /// The error of the last fetch that returned `Disk`, for a log; each error is returned once.
    fn take_reason(&mut self) -> Option<io::Error>;

    /// The cause of the last fetch that returned `Unsendable`, for a message; each cause is returned once.
    fn take_cause(&mut self) -> Option<Unsendable>;
}
