// The user and the password by which a peer is logged in to.
ghost use Rattle.std.specs.Prelude.{◌≡◌, IfOk};

use crate::account_line::AccountLine;
use std::alloc::{AllocError, Global};

/// The user and the password by which a peer is logged in to. It has no `Debug`, so that nothing writes it by accident.
#[derive(Drop)]
pub struct Account {
    pub(crate) user: Vec<u8>,
    pub(crate) password: Vec<u8>,
}

impl Account {
    // The account of a line.
    pub(crate) fn of(alloc: Global, line: &AccountLine<'_>) -> Result<Self, AllocError>
        ensures user { IfOk result (λ account. account.user.items ≡ line.now.user.now) }
        ensures password { IfOk result
            (λ account. account.password.items ≡ line.now.password.now) }
    {
        Ok(Account {
            user: Vec::from_slice(alloc, line.user)?,
            password: Vec::from_slice(alloc, line.password)?,
        })
    }

    /// A copy.
    ///
    /// # Errors
    /// Memory was refused.
    pub fn try_clone(&self) -> Result<Self, AllocError>
        ensures user { IfOk result (λ account. account.user.items ≡ self.now.user.items) }
        ensures password { IfOk result
            (λ account. account.password.items ≡ self.now.password.items) }
    {
        Ok(Account {
            user: self.user.clone()?,
            password: self.password.clone()?,
        })
    }
}
