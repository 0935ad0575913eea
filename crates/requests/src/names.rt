// The names of the files.
ghost use Rattle.std.specs.Prelude.{◌≡◌, ◌↔◌, ◌<◌, ◌^◌, ℕ, IfOk, Some, decimal, string_bytes};
ghost use Rattle.requests.specs.Names.{answer_name, ask_name, new_name, path_in};

use crate::number::read_number;
use std::alloc::{AllocError, Global};

// What the name of a request begins with.
const ASK: &[u8] = b"~ask.";

/// The id of the process whose request has this name; `None` if it is no name of a request.
pub(crate) fn read_ask_name(name: &[u8]) -> Option<u32>
    ensures { (pid : ℕ) → (result ≡ Some pid) ↔ ((pid < 2 ^ 32) × (name.now ≡ ask_name pid)) }
{
    match name.strip_prefix(ASK) {
        Some(digits) => read_pid(digits),
        None => None,
    }
}

fn read_pid(digits: &[u8]) -> Option<u32>
    ensures { (pid : ℕ) → (result ≡ Some pid) ↔ ((pid < 2 ^ 32) × (digits.now ≡ decimal pid)) }
{
    match read_number(digits) {
        Some(number) => u32::try_from(number).ok(),
        None => None,
    }
}

/// The path of the request of this process.
pub(crate) fn ask_path(alloc: Global, directory: &str, pid: u32) -> Result<String, AllocError>
    ensures { IfOk result (λ path. string_bytes path ≡ path_in directory.now (ask_name pid)) }
{
    format!(in alloc; "{directory}/~ask.{pid}")
}

/// The path of the answer to it.
pub(crate) fn answer_path(alloc: Global, directory: &str, pid: u32) -> Result<String, AllocError>
    ensures { IfOk result (λ path. string_bytes path ≡ path_in directory.now (answer_name pid)) }
{
    format!(in alloc; "{directory}/~answer.{pid}")
}

/// The path at which the file of a path is made.
pub(crate) fn new_path(alloc: Global, path: &str) -> Result<String, AllocError>
    ensures { IfOk result (λ beside. string_bytes beside ≡ new_name path.now) }
{
    format!(in alloc; "{path}.new")
}
