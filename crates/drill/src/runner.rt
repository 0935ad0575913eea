// Drills over a reader and a writer.
ghost use Rattle.std.specs.Prelude.{IfOk};
ghost use Rattle.drill.specs.Drill.{Drills};

use crate::ending::Ending;
use crate::play::play;
use std::alloc::Global;
use std::io::{self, Read, Write};

/// Runs the drill script in the reader, writes what it prints, and returns how it ended.
///
/// # Errors
/// The reader's and the writer's.
pub fn run_script<R: Read, W: Write>(
    alloc: Global,
    reader: &mut R,
    writer: &mut W,
) -> io::Result<Ending>
    ensures { IfOk result (Drills (R.remaining reader.old)
        (W.contents writer.old) (W.contents writer.new)) }
{
    let mut text = Vec::new(alloc);
    reader.read_to_end(&mut text)?;
    let Ok(played) = play(alloc, &text) else {
        return Ok(Ending::NoMemory);
    };
    writer.write_all(&played.printed)?;
    writer.flush()?;
    Ok(played.ending)
}
