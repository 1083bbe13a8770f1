//! Examples that print a few lines each: how to distinguish the errors of a get, a pool whose
//! settings are read at run time, a manager for a client that blocks, a sink that prints, and a
//! service over SQLite databases. A manager's tests are in `bb8_template`.
#![tactic(auto)]

mod blocking;
mod databases;
mod errors;
mod service;
mod settings;

use crate::blocking::{Files, reads};
use crate::errors::ends;
use crate::service::print_visits;
use crate::settings::{SETTINGS, served};
use bb8::RunError;
use std::io;

fn main(rt: HostRuntime) -> io::Result<()> {
    match ends(rt) {
        Ok((first, second)) => println!(rt; "errors: {first}, then {second}")?,
        Err(_) => println!(rt; "errors: no pool")?,
    }
    for (size, idle) in SETTINGS {
        match served(rt, size, idle) {
            Some(Ok(count)) => println!(rt; "settings {size} and {idle}: {count} served")?,
            Some(Err(_)) => println!(rt; "settings {size} and {idle}: no pool")?,
            None => println!(rt; "settings {size} and {idle}: not lawful")?,
        }
    }
    match reads(rt, Files::up(rt)) {
        Ok(count) => println!(rt; "blocking: {count} read")?,
        Err(_) => println!(rt; "blocking: no pool")?,
    }
    match reads(rt, Files { rt, is_down: true }) {
        Err(RunError::User(error)) => println!(rt; "blocking: {error}")?,
        _ => println!(rt; "blocking: a pool of a server that is down")?,
    }
    print_visits(rt)
}
