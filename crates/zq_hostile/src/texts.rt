//! Texts that are read as settings.

use std::alloc::Global;
use std::io::{BufRead, BufReader};
use std::{io, str};
use zq_dots::Rule;
use zq_settings::{LogLevel, Settings, settings};

/// Reads a text from each line of standard input, in hexadecimal digits, and writes a line for
/// each: its settings, or why it has none.
pub fn read_texts<R: Input + Print>(rt: &R, alloc: Global) -> io::Result<()> {
    for line in BufReader::new(alloc, rt.reader())?.lines(alloc) {
        let line = line?;
        match hex::decode(alloc, line.as_str()) {
            Ok(bytes) => tell_text(rt, alloc, &bytes)?,
            Err(_) => println!(rt; "not hexadecimal")?,
        }
    }
    Ok(())
}

/// Writes what the bytes of a text are read as.
fn tell_text<R: Print>(rt: &R, alloc: Global, bytes: &[u8]) -> io::Result<()> {
    let Ok(text) = str::from_utf8(bytes) else {
        return println!(rt; "not UTF-8");
    };
    match settings(alloc, text) {
        Ok(given) => tell_settings(rt, &given),
        Err(fault) => println!(rt; "{fault}"),
    }
}

/// Writes settings, the ports last, and 0 for connections without end.
fn tell_settings<R: Print>(rt: &R, given: &Settings) -> io::Result<()> {
    let connections = match given.connections {
        Some(count) => count.value(),
        None => 0,
    };
    let level = match given.log_level {
        LogLevel::Warn => "warn",
        LogLevel::Info => "info",
        LogLevel::Debug => "debug",
    };
    let rule = match given.rule {
        Rule::High => "HIGH",
        Rule::Low => "LOW",
    };
    let limits = &given.limits;
    print!(rt;
        "settings {} {} {connections} {} {} {} {} {level} {} {rule}",
        given.heaps.value(),
        given.workers.value(),
        limits.clients.value(),
        limits.timeout.value(),
        limits.write_timeout.value(),
        limits.output.value(),
        given.seed.value()
    )?;
    for port in given.ports.as_slice() {
        print!(rt; " {}", port.value())?;
    }
    println!(rt; "")
}
