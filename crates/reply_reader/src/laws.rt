//! Laws of reply lines and of what was read of them. Each function does nothing: its contract is the law.
ghost use Rattle.std.specs.Prelude.{◌≡◌, ◌⊎◌, ℕ, List, Option, length, take};
ghost use Rattle.reply_reader.specs.Reply.{IsNoReply, IsReplyLine};
ghost use Rattle.reply_reader.specs.Stream.{Given, IsShort, Reads};

/// A line has one code, one message-id or none, and one text; and each line either has them or does not begin with a
/// code.
pub fn line_reads_once()
    ensures once { (line : List ℕ) (code code' : ℕ) (id id' : Option (List ℕ)) (text text' : List ℕ)
        → IsReplyLine line code id text → IsReplyLine line code' id' text'
        → (code ≡ code') × (id ≡ id') × (text ≡ text') }
    ensures either { (line : List ℕ)
        → IsNoReply line
        ⊎ ((code : ℕ) × (id : Option (List ℕ)) × (text : List ℕ) × IsReplyLine line code id text) }
    ensures apart { (line : List ℕ) (code : ℕ) (id : Option (List ℕ)) (text : List ℕ)
        → IsReplyLine line code id text → IsNoReply line → ⊥ }
{}

/// The same octets give the same replies, in whatever pieces they are fed: if there are two readings, the replies of
/// one are the beginning of the other's, and if neither leaves a whole line, they are the same.
pub fn cut_anyhow()
    ensures begins { (fed : List ℕ) (a b : List Given) (u v : List ℕ) → Reads fed a u
        → Reads fed b v → (a ≡ take (length a) b) ⊎ (b ≡ take (length b) a) }
    ensures same { (fed : List ℕ) (a b : List Given) (u v : List ℕ) → Reads fed a u → Reads fed b v
        → IsShort u → IsShort v → (a ≡ b) × (u ≡ v) }
{}
