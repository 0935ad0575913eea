// Reading files.
ghost use Rattle.std.specs.Prelude.{◌≢◌, ℕ, List, Option, None, Some, IfOk, IfErr};
ghost use Rattle.std.specs.IoError.{error_kind};
ghost use Rattle.std.specs.declared.io.ErrorKind.TheVariants.{OutOfMemory};

use std::alloc::Global;
use std::io;

/// What reads whole files by their paths.
pub trait ReadFile {
    /// What is known of a path: that its file has these octets, or, with `None`, that it cannot be read. Nothing is
    /// known of the system's files: the default holds of all octets.
    ghost says: { Self → List ℕ → Option (List ℕ) → Type 0 } = { λ _ _ _. Unit {0} };

    /// All octets of the file at the path.
    ///
    /// # Errors
    /// `OutOfMemory` if memory was refused; any other kind if the file cannot be read.
    fn read_file(&self, alloc: Global, path: &str) -> io::Result<Vec<u8>>
        ensures read { IfOk result (λ text. says self.now path.now (Some text.items)) }
        ensures unread { IfErr result (λ error. error_kind error ≢ OutOfMemory
            → says self.now path.now None) };
}
