//! The program: standard input to standard output, by `pt_main::run`.
#![tactic(auto)]

use pt_eval::Open;
use pt_io::{RealSink, RealSource, Sink, Source};
use pt_main::{Status, run};
use pt_store::{Mixed, SharedStore};
use std::alloc::Global;
use std::io::ErrorKind;
use std::process::ExitCode;
use std::thread::Threads;
use std::{env, mem};

const USAGE: &str =
    "usage: prestaf [--mode=solve|drill] [--workers=N] [--states=B] [--seed=N] [--size=K]";

/// How many shards the store has.
const SHARDS: u32 = 16;

/// How many codes a shard may have.
const MAX_CODES: u32 = 268_434_432;

/// Writes a line on a run that gave no answer to standard error.
fn report(rt: &HostRuntime, status: Status) {
    let _ = match status {
        Status::Done | Status::Refused => Ok(()),
        Status::Usage => eprintln!(rt; "{USAGE}"),
        Status::ReadFault => eprintln!(rt; "prestaf: cannot read the script"),
        Status::WriteFault => eprintln!(rt; "prestaf: cannot write"),
        Status::NoMemory => eprintln!(rt; "prestaf: out of memory"),
        Status::StoreFull { shard } => eprintln!(rt; "prestaf: store shard {shard} is full"),
    };
}

/// The words behind the program's name. Where they cannot be read, the run ends as for the status.
fn words(rt: &HostRuntime) -> Result<Vec<String>, Status> {
    match env::args(rt) {
        Ok(args) => args
            .skip(1)
            .collect(rt.alloc())
            .map_err(|_| Status::NoMemory),
        Err(error) if error.kind() == ErrorKind::OutOfMemory => Err(Status::NoMemory),
        Err(_) => Err(Status::Usage),
    }
}

/// Answers the script of the source over a store of its own. The process ends behind it and gives all its memory back at
/// once, so the store is let go without a walk over its cells and codes.
fn answer<S: Source, K: Sink, R: Threads + Sync>(
    rt: &R,
    alloc: Global,
    words: &[String],
    source: &mut S,
    sink: &mut K,
) -> Status {
    match SharedStore::new(alloc, SHARDS, MAX_CODES, Mixed) {
        Ok((store, mut pass)) => {
            let status = run(rt, alloc, words, source, sink, &Open, &store, &mut pass);
            mem::forget(pass);
            mem::forget(store);
            status
        }
        Err(_) => Status::NoMemory,
    }
}

fn main(rt: HostRuntime) -> ExitCode {
    let mut source = RealSource::new(rt.stdin());
    let mut sink = RealSink::new(rt.stdout());
    let status = match words(&rt) {
        Ok(words) => answer(&rt, rt.alloc(), words.as_slice(), &mut source, &mut sink),
        Err(status) => status,
    };
    report(&rt, status);
    ExitCode::from(status.exit_number())
}
