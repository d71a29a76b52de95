//! A stream over files that stop, and its plan migrated over such files; a line reports each.

use std::io;
use test_stops::{Migrations, Stops, try_migrations, try_stops};

/// Prints the line that tells of a stream whether it holds over files that stop.
fn tell_stops<R: Print>(rt: &R, name: &str, stops: &Stops) -> io::Result<bool> {
    let tried = stops.tried;
    match stops.wrong {
        None => {
            println!(rt; "{name} holds, {tried} stops")?;
            Ok(true)
        }
        Some(part) => {
            println!(rt; "{name} GOES WRONG, over files of which one stops, at stop {tried}")?;
            println!(rt; "  its {part} is not as it should be")?;
            Ok(false)
        }
    }
}

/// Runs a stream over files that stop at each call, and prints the line that tells whether it holds.
pub fn stop_one<R: AllocGlobal + Print>(
    rt: &R,
    name: &str,
    text: &[u8],
    replies: &[u8],
) -> io::Result<bool> {
    let stops = try_stops(rt.alloc(), text, replies)?;
    tell_stops(rt, name, &stops)
}

/// Prints the line that tells of a stream whether its plan, migrated over files that stop, holds.
fn tell_migrations<R: Print>(rt: &R, name: &str, stops: &Migrations) -> io::Result<bool> {
    let (stayed, went) = (stops.stayed, stops.went);
    match stops.wrong {
        None => {
            println!(rt;
                "{name} holds, migrated: {stayed} stops left schema 1, {went} the current one"
            )?;
            Ok(true)
        }
        Some(part) => {
            println!(rt;
                "{name} GOES WRONG, migrated, after {stayed} stops that left schema 1 and {went} others"
            )?;
            println!(rt; "  its {part} is not as it should be")?;
            Ok(false)
        }
    }
}

/// Migrates the plan that a stream leaves over files that stop at each call, and prints the line that tells whether it
/// holds.
pub fn migrate_one<R: AllocGlobal + Print>(
    rt: &R,
    name: &str,
    text: &[u8],
    replies: &[u8],
) -> io::Result<bool> {
    let stops = try_migrations(rt.alloc(), text, replies)?;
    tell_migrations(rt, name, &stops)
}
