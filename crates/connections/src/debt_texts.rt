// The words of a debt, for a log.
ghost use Rattle.std.specs.Prelude.{◌≡◌, IfOk};

use funnel::{MsgId, Token};
use ledger_core::Debt;
use std::alloc::AllocError;

/// A copy of a debt's token and message-id.
///
/// # Errors
/// Memory was refused.
pub fn texts_of(debt: &Debt) -> Result<(Token, MsgId), AllocError>
    ensures { IfOk result (λ texts. (texts.0 ≡ debt.now.1.0) × (texts.1 ≡ debt.now.1.1)) }
{
    Ok((debt.token().clone()?, debt.id().clone()?))
}
