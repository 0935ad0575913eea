// What is read has one reading or one fault: octets that wait for a reply, and lines of the funnel.
ghost use Rattle.std.specs.Prelude.{◌≡◌, ◌≢◌, ◌⊎◌, ℕ, List};
ghost use Rattle.funnel.specs.Line.{HasFault, IsFunnelLine};
ghost use Rattle.funnel.specs.declared.line.LineFault.{LineFault};
ghost use Rattle.funnel.specs.declared.line.LineFault.TheVariants.{NoMemory};
ghost use Rattle.reply_reader.specs.Stream.{BeginsWithNoReply, BeginsWithReply, Given, IsFaulty, IsShort, IsTooLong};

/// Octets that wait to be read are part of a reply line, or begin with a fault, or begin with a reply: always one of
/// these, and never two. So there is a fault only if the octets have no reading. The two faults exclude each other.
pub fn waiting_reads_once()
    ensures some { (unread : List ℕ) → IsShort unread ⊎ (IsFaulty unread
        ⊎ ((given : Given) × (rest : List ℕ) × BeginsWithReply unread given rest)) }
    ensures fault { (unread rest : List ℕ) (given : Given) → IsFaulty unread
        → BeginsWithReply unread given rest → ⊥ }
    ensures short { (unread : List ℕ) → IsShort unread → IsFaulty unread → ⊥ }
    ensures whole { (unread rest : List ℕ) (given : Given) → IsShort unread
        → BeginsWithReply unread given rest → ⊥ }
    ensures one { (unread : List ℕ) → IsTooLong unread → BeginsWithNoReply unread → ⊥ }
{}

/// A funnel line is valid or has a fault of its own, and never both; it has at most one fault. Want of memory is no
/// fault of the line.
pub fn line_has_one_fault()
    ensures either { (line : List ℕ)
        → ((token id : List ℕ) × (peers : List (List ℕ)) × IsFunnelLine line token id peers)
        ⊎ ((fault : LineFault) × (fault ≢ NoMemory) × HasFault line fault) }
    ensures faultless { (line token id : List ℕ) (peers : List (List ℕ)) (fault : LineFault)
        → IsFunnelLine line token id peers → fault ≢ NoMemory → HasFault line fault → ⊥ }
    ensures one { (line : List ℕ) (fault other : LineFault) → fault ≢ NoMemory → other ≢ NoMemory
        → HasFault line fault → HasFault line other → fault ≡ other }
{}
