//! Laws of texts, lines and blocks. Each function does nothing: its contract is the law.
ghost use Rattle.std.specs.Prelude.{◌≡◌, ◌++◌, ℕ, List, Some};
ghost use Rattle.std.specs.List.{AllByRecursion};
ghost use Rattle.dot_codec.specs.Lines.{HasLines, IsLine, text_of};
ghost use Rattle.dot_codec.specs.Block.{IsReadForm, end_of_block, written};
ghost use Rattle.dot_codec.specs.Fault.{HasBlockFault};
ghost use Rattle.dot_codec.specs.Stored.{AreWholeLines, stored_text};
ghost use Rattle.dot_codec.specs.declared.fault.BlockFault.{BlockFault};

/// A text has one list of lines, and every list of lines belongs to a text.
pub fn lines_once()
    ensures once { (text : List ℕ) (a b : List (List ℕ)) → HasLines text a → HasLines text b
        → a ≡ b }
    ensures each { (text : List ℕ) (lines : List (List ℕ)) → HasLines text lines
        → AllByRecursion IsLine lines }
    ensures text { (lines : List (List ℕ)) → AllByRecursion IsLine lines
        → HasLines (text_of lines) lines }
{}

/// No read form is the beginning of another, so a stream of blocks can be cut in only one way.
pub fn forms_do_not_begin_another()
    ensures { (a b : List (List ℕ)) (x y p q : List ℕ) → IsReadForm a x → IsReadForm b y
        → x ++ p ≡ y ++ q → (a ≡ b) × (x ≡ y) × (p ≡ q) }
{}

/// The written form of lines is a read form of them. So `from_block` reads what `to_block` made of a text as the
/// lines of that text, whatever follows the block.
pub fn written_is_read()
    ensures lines { (lines : List (List ℕ)) → AllByRecursion IsLine lines
        → IsReadForm lines (written lines) }
    ensures text { (text : List ℕ) (lines : List (List ℕ)) → HasLines text lines
        → IsReadForm lines (written lines) }
{}

/// Octets have at most one fault, and none if they begin with a read form.
pub fn faults_once()
    ensures once { (octets : List ℕ) (a b : BlockFault) → HasBlockFault octets a
        → HasBlockFault octets b → a ≡ b }
    ensures never { (lines : List (List ℕ)) (form rest : List ℕ) (fault : BlockFault)
        → IsReadForm lines form → HasBlockFault (form ++ rest) fault → ⊥ }
{}

/// The written form of lines is stored as a text with those lines. So what innd stores as `to_block` would write it is
/// sent octet for octet as it is stored. Octets that are stored as a text are whole lines and the end of a block.
pub fn stored_as_written()
    ensures lines { (lines : List (List ℕ)) → AllByRecursion IsLine lines
        → (text : List ℕ) × (stored_text (written lines) ≡ Some text) × HasLines text lines }
    ensures end { (octets text : List ℕ) → stored_text octets ≡ Some text
        → (body : List ℕ) × (octets ≡ body ++ end_of_block) × AreWholeLines body }
{}
