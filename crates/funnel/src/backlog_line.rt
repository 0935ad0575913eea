// The lines of backlog files.
ghost use Rattle.std.specs.Prelude.{◌≡◌, ◌↔◌, ℕ, List, IfOk, IsErrOf};
ghost use Rattle.funnel.specs.Line.{HasFault, IsBacklogLine, IsFunnelLine};

use crate::line::{LineFault, Parts};
use crate::names::{MsgId, Token};
use std::alloc::Global;

/// Reads a line of a backlog file, the octets before its LF: an article's token and its message-id. Any further words
/// are ignored, and one CR at the end of the line is dropped.
///
/// # Errors
/// Those of `read_line`: the first fault of the line, `TooLong` before all others; `NoMemory` only for a good line.
pub fn read_backlog_line(alloc: Global, line: &[u8]) -> Result<(Token, MsgId), LineFault>
    ensures good { IfOk result (λ l. IsBacklogLine line.now l.0 l.1) }
    ensures too_long { IsErrOf result LineFault.TooLong ↔ HasFault line.now LineFault.TooLong }
    ensures no_token { IsErrOf result LineFault.NoToken ↔ HasFault line.now LineFault.NoToken }
    ensures bad_token { IsErrOf result LineFault.BadToken ↔ HasFault line.now LineFault.BadToken }
    ensures bad_id { IsErrOf result LineFault.BadId ↔ HasFault line.now LineFault.BadId }
    ensures no_memory { IsErrOf result LineFault.NoMemory
        → (token id : List ℕ) × IsBacklogLine line.now token id }
{
    let parts = Parts::cut(line)?;
    let article = parts.article(alloc)?;
    Ok(article)
}

/// A line of a backlog file has one reading, one token and one message-id. A funnel line is one too, of the same
/// article.
pub fn reads_backlog_once()
    ensures once { (line token id token' id' : List ℕ) → IsBacklogLine line token id
        → IsBacklogLine line token' id' → (token ≡ token') × (id ≡ id') }
    ensures funnel { (line token id : List ℕ) (peers : List (List ℕ))
        → IsFunnelLine line token id peers → IsBacklogLine line token id }
{}
