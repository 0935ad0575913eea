// What the command line asks for.

use feed_ends::{Listing, Source};

/// What the program is to do.
#[derive(Debug, Drop)]
pub enum Order<'a> {
    /// Run the drill script on standard input.
    DrillFromInput,
    /// Run the drill script in this file.
    Drill(&'a str),
    /// Check the configuration in the file `conf`; if `verbose`, say what its faults and ignored settings mean.
    Check {
        conf: &'a str,
        verbose: bool,
    },
    /// Print the settings in force of the configuration in the file `conf`; if `verbose`, explain a bad one.
    PrintConf {
        conf: &'a str,
        verbose: bool,
    },
    /// Print what each peer of the configuration in the file `conf` is owed, or all that waits in its backlog
    /// directory, as much as `listing` says; if `verbose`, log the last line that is acknowledged, and explain a bad
    /// configuration.
    Owed {
        conf: &'a str,
        listing: Listing<'a>,
        verbose: bool,
    },
    /// Feed the peers of the configuration in the file `conf` from this source; if `drops_missing`, drop every article
    /// that is missing from the spool; if `verbose`, log what becomes of connections, and explain a bad configuration.
    Feed {
        conf: &'a str,
        source: Source<'a>,
        drops_missing: bool,
        verbose: bool,
    },
    /// Print this text, the help or the version.
    Print(String),
    /// Report this mistake in the arguments, one line without its LF.
    Mistake(String),
}
