//! The program `pkg`: it locks the image's folder, makes the objects of the host and calls the top call, which does everything
//! else. Where the first word is `mogrify`, it calls that of `ips_mogrify`; where it is `send`, it locks the repository and calls
//! that of `ips_publish`.
#![tactic(auto)]

mod locking;
mod mogrifying;
mod objects;
mod sending;
mod working;

use crate::mogrifying::{asks_to_mogrify, mogrified};
use crate::sending::{asks_to_send, sent};
use crate::working::answer;
use std::process::ExitCode;
use std::time::Clock;
use std::{env, io};

fn main(rt: HostRuntime) -> ExitCode {
    let words = match words_of(&rt) {
        Ok(words) => words,
        Err(e) => return failed(&rt, "the words can't be read", e),
    };
    if asks_to_mogrify(&words) {
        return mogrified(rt, &words);
    }
    match rt.since_1970() {
        Ok(since) => {
            if asks_to_send(&words) {
                sent(rt, &words, since)
            } else {
                answer(rt, &words, since)
            }
        }
        Err(e) => failed(&rt, "the clock can't be read", e),
    }
}

// The words of the command line, without the program's name.
fn words_of(rt: &HostRuntime) -> io::Result<Vec<String>> {
    let words = env::args(rt)?.skip(1).collect(rt.alloc())?;
    Ok(words)
}

// Says why nothing is done.
fn failed(rt: &HostRuntime, what: &str, why: io::Error) -> ExitCode {
    let _ = eprintln!(rt; "pkg: {what}: {why}");
    ExitCode::FAILURE
}
