// The run of octets up to the next NUL, LF or CR.
ghost use Rattle.std.specs.Prelude.{◌≡◌, ◌≤◌, length, take, drop};
ghost use Rattle.dot_codec.specs.Lines.{IsLine};
ghost use Rattle.dot_codec.specs.Scan.{EndsRun, IsRun, IsStop, ends_line};

use memchr::memchr3_iter;

/// What ends a run of octets that a line may have.
#[derive(Clone, Copy, Debug, PartialEq, Eq)]
pub(crate) enum RunEnd {
    End,
    Nul,
    Lf,
    CrLf,
    /// A CR without an LF after it.
    Cr,
}

// Whether a run that the stop ends is a line of a text.
#[inline]
pub(crate) fn ends_line(stop: RunEnd) -> bool
    ensures { result ≡ ends_line stop }
{
    match stop {
        RunEnd::End => true,
        RunEnd::Nul => false,
        RunEnd::Lf => true,
        RunEnd::CrLf => true,
        RunEnd::Cr => false,
    }
}

/// A run of octets that a line may have, what ends it, and the rest after that.
#[derive(Clone, Copy, Debug)]
pub(crate) struct Run<'t> {
    pub(crate) octets: &'t [u8],
    pub(crate) stop: RunEnd,
    pub(crate) rest: &'t [u8],
}

/// A line without its end, and the rest after that.
#[derive(Clone, Copy, Debug)]
pub(crate) struct Line<'t> {
    pub(crate) octets: &'t [u8],
    pub(crate) rest: &'t [u8],
}

// The run may be empty.
#[inline]
pub(crate) fn first_run(octets: &[u8]) -> Run<'_>
    ensures { IsRun octets.now result.octets.now result.stop result.rest.now }
{
    let (run, tail) = octets.split_at(run_len(octets));
    let (stop, rest) = stop_of(tail);
    Run {
        octets: run,
        stop,
        rest,
    }
}

// One search for all that a line may not have. The first step of an iterator is quick if what it looks for is near, as
// the end of most lines is.
#[inline]
fn run_len(octets: &[u8]) -> usize
    ensures within { result ≤ length octets.now }
    ensures run { IsLine (take result octets.now) }
    ensures end { EndsRun (drop result octets.now) }
{
    memchr3_iter(b'\0', b'\n', b'\r', octets)
        .next()
        .unwrap_or(octets.len())
}

// What ends a run here, and the rest after it.
#[inline]
fn stop_of(tail: &[u8]) -> (RunEnd, &[u8])
    requires { EndsRun tail.now }
    ensures { IsStop result.0 tail.now result.1.now }
{
    match tail {
        [] => (RunEnd::End, tail),
        [b'\0', rest @ ..] => (RunEnd::Nul, rest),
        [b'\n', rest @ ..] => (RunEnd::Lf, rest),
        [b'\r', b'\n', rest @ ..] => (RunEnd::CrLf, rest),
        [_, rest @ ..] => (RunEnd::Cr, rest),
    }
}
