// Cuts a recording at each LF and prints one line for each packet.
#![tactic(auto)]

mod cutter;
mod events;
mod filling;
mod held;
mod listing;
mod taking;
#[cfg(test)]
mod tests;

use anyhow::{anyhow, bail};
use listing::Listing;
use std::env;
use std::fs::File;
use std::io::{BufWriter, Read, Write};
use std::process::ExitCode;

const USAGE: &str = "usage: replay [FILE]";

fn replay<R: Read, W: Write>(input: &mut R, out: &mut W) -> anyhow::Result<()> {
    let mut listing = Listing::new(out);
    let mut piece = [0; 65536];
    // One turn for each read. A loop with no bound would need a handle that may wait.
    for _ in 0..u64::MAX {
        let n = input.read(&mut piece)?;
        if n == 0 {
            break;
        }
        listing.feed(&piece[..n])?;
    }
    listing.close()?;
    Ok(())
}

fn replay_file<W: Write>(rt: &HostRuntime, path: &str, out: &mut W) -> anyhow::Result<()> {
    if path.starts_with('-') {
        bail!(USAGE);
    }
    let mut input = File::open(rt, path).map_err(|e| anyhow!("cannot open {path}: {e}"))?;
    replay(&mut input, out)
}

fn run(rt: &HostRuntime) -> anyhow::Result<()> {
    let mut args = env::args(rt)?.skip(1);
    let file = args.next();
    if args.next().is_some() {
        bail!(USAGE);
    }
    let mut out = BufWriter::new(rt.alloc(), rt.stdout())?;
    match file {
        Some(path) => replay_file(rt, path.as_str(), &mut out),
        None => replay(&mut rt.stdin(), &mut out),
    }
}

fn main(rt: HostRuntime) -> ExitCode {
    match run(&rt) {
        Ok(()) => ExitCode::SUCCESS,
        Err(e) => {
            let _ = eprintln!(rt; "replay: {e}");
            ExitCode::FAILURE
        }
    }
}
