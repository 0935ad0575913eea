// The funnel of a feed.
ghost use Rattle.std.specs.Prelude.{◌≡◌, IfOk, is_some};
ghost use Rattle.intake.specs.Sources.{is_followed, is_funnel};

use crate::run_error::RunError;
use feed_ends::Source;
use funnel_files::Funnel;
use log::{Log, warn};
use std::fs::{self, File};
use std::net::Net;
use std::rt::Files;

// What FUNNEL is if it is standard input, and the file that this is.
const STANDARD_INPUT: &str = "-";

const STANDARD_INPUT_FILE: &str = "/dev/stdin";

/// Opens the funnel of this source, if it has one, after the lines that are acknowledged: standard input if its path is
/// `-`. A funnel with fewer lines than that is another one, and is refused. A pipe cannot tell: a line is logged on how
/// many of its lines are passed over. `net` is the capability to wait for a funnel.
///
/// # Errors
/// Memory was refused; the funnel cannot be read, for a reason that is logged.
pub fn open_funnel<'a, R: Log, F: AllocGlobal + Files<File = File>, C: Net>(
    rt: &R,
    files: &'a F,
    net: &C,
    source: Source<'_>,
    acknowledged: u64,
) -> Result<Option<Funnel<'a, F>>, RunError>
    ensures { IfOk result (λ funnel. is_some funnel ≡ is_funnel source.entry) }
{
    let Source::Funnel {
        path,
        is_followed,
        is_tidied,
    } = source
    else {
        return Ok(None);
    };
    let path = if path == STANDARD_INPUT {
        STANDARD_INPUT_FILE
    } else {
        path
    };
    if acknowledged > 0 && is_stream(files, path) {
        warn!(
            rt; "{}: lines 1 to {} are passed over as acknowledged; another funnel needs another backlog-directory",
            path, acknowledged
        );
    }
    match Funnel::open(files, net, path, acknowledged, is_followed, is_tidied) {
        Ok(funnel) => Ok(Some(funnel)),
        Err(fault) => Err(RunError::funnel(rt, files.alloc(), path.as_bytes(), fault)),
    }
}

// Whether the funnel at this path gives each line once: a pipe, a terminal or the like.
fn is_stream<F: Files<File = File>>(files: &F, path: &str) -> bool {
    match fs::metadata(files, path) {
        Ok(there) => !there.is_file() && !there.is_dir(),
        Err(_) => false,
    }
}

/// Whether this source is a funnel that is followed.
pub fn is_followed(source: Source<'_>) -> bool
    ensures { result ≡ is_followed source.entry }
{
    matches!(
        source,
        Source::Funnel {
            is_followed: true,
            ..
        }
    )
}
