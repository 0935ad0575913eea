//! A small news server that accepts articles: to try the feeder on, by hand and in tests (README.md).
//!
//! It may listen on 127.0.0.1, read and append to the log that it is given, and print. Nothing stands above this
//! crate, and no proof says what it answers: each function is proved safe.
#![tactic(auto)]

mod exchange;
mod history;
mod server;

use anyhow::{Context, Result};
use history::{Habits, History};
use server::serve;
use std::env;

const USAGE: &str = "usage: tool_peer PORT LOG [later=N] [close=N]
listens on 127.0.0.1:PORT (0: any port) and appends a line `ID LENGTH` to LOG for each article that it accepts
later=N: each N-th CHECK and IHAVE is put off by 431 or 436; close=N: a connection ends after N articles";

fn main(rt: HostRuntime) -> Result<()> {
    let mut words = env::args(&rt)?.skip(1);
    let (Some(port), Some(log)) = (words.next(), words.next()) else {
        println!(rt; "{USAGE}")?;
        return Ok(());
    };
    let mut habits = Habits { later: 0, close: 0 };
    for word in words {
        habits.read(word.as_str())?;
    }
    let port = port.as_str().parse::<u16>().context("PORT is no port")?;
    let history = History::open(&rt, log.as_str(), habits)?;
    serve(&rt, port, history)
}
