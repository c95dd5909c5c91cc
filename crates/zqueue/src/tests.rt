//! What command lines and settings come to.

use crate::asked::{Command, asked};
use crate::configured::{Unsettled, configured, site_configured};
use crate::drilling::drill_out;
use crate::piping::pipe;
use crate::refusal::{Refusal, conclude, finish, refuse};
use crate::serving::{serve_file, serve_site_file};
use std::env::{Env, FillError};
use std::test::Fail;
use zq_server::{SettingsFault, Why};

// A command line of these words.
#[derive(Drop)]
struct Line<'a> {
    words: &'a [&'a [u8]],
}

impl Env for Line<'_> {
    fn arg(&self, at: usize, out: &mut [u8]) -> Result<usize, FillError> {
        let Some(word) = self.words.get(at) else {
            return Err(FillError::NotPresent);
        };
        if word.len() > out.len() {
            return Err(FillError::TooLong);
        }
        out[..word.len()].copy_from_slice(word);
        Ok(word.len())
    }

    fn var(&self, _name: &str, _out: &mut [u8]) -> Result<usize, FillError> {
        Err(FillError::NotPresent)
    }

    fn var_at(&self, _at: usize, _out: &mut [u8]) -> Result<usize, FillError> {
        Err(FillError::NotPresent)
    }
}

/// The seed and the rounds of a drill.
fn drill_of(command: &Option<Command>) -> Option<(u64, u32)> {
    match command {
        Some(Command::Drill { seed, rounds }) => Some((*seed, *rounds)),
        _ => None,
    }
}

/// The words of a command, joined by spaces.
fn words_of(command: &Option<Command>) -> (&str, &str) {
    match command {
        None => ("none", ""),
        Some(Command::Pipe) => ("pipe", ""),
        Some(Command::Serve(path)) => ("serve", path.as_str()),
        Some(Command::Site(path)) => ("site", path.as_str()),
        Some(Command::Stop(path)) => ("stop", path.as_str()),
        Some(Command::Status(path)) => ("status", path.as_str()),
        Some(Command::Inspect(path)) => ("inspect", path.as_str()),
        Some(Command::Check(path)) => ("check", path.as_str()),
        Some(Command::Members { key, .. }) => ("members", key.as_str()),
        Some(Command::Adopt { new, .. }) => ("adopt", new.as_str()),
        Some(Command::Drill { .. }) => ("drill", ""),
    }
}

#[test]
fn a_command_has_its_words_and_no_others(rt: HostRuntime) -> Result<(), Fail> {
    let rows: [(&[&[u8]], (&str, &str)); 28] = [
        (&[b"zqueue", b"pipe"], ("pipe", "")),
        (&[b"zqueue"], ("none", "")),
        (&[b"zqueue", b"PIPE"], ("none", "")),
        (&[b"zqueue", b"pipe", b"pipe"], ("none", "")),
        (&[b"zqueue", b"pi\xffpe"], ("none", "")),
        (&[b"zqueue", b"serve", b"two.toml"], ("serve", "two.toml")),
        (&[b"zqueue", b"serve"], ("none", "")),
        (&[b"zqueue", b"serve", b"a", b"b"], ("none", "")),
        (&[b"zqueue", b"two.toml", b"serve"], ("none", "")),
        (&[b"zqueue", b"site", b"three.toml"], ("site", "three.toml")),
        (&[b"zqueue", b"site"], ("none", "")),
        (&[b"zqueue", b"site", b"a", b"b"], ("none", "")),
        (&[b"zqueue", b"sites", b"three.toml"], ("none", "")),
        (&[b"zqueue", b"stop", b"three.toml"], ("stop", "three.toml")),
        (
            &[b"zqueue", b"status", b"three.toml"],
            ("status", "three.toml"),
        ),
        (&[b"zqueue", b"stop"], ("none", "")),
        (&[b"zqueue", b"inspect", b"dir"], ("inspect", "dir")),
        (
            &[b"zqueue", b"inspect", b"--check", b"dir"],
            ("check", "dir"),
        ),
        (
            &[b"zqueue", b"inspect", b"--members", b"k", b"dir"],
            ("members", "k"),
        ),
        (&[b"zqueue", b"inspect"], ("none", "")),
        (&[b"zqueue", b"inspect", b"--members", b"dir"], ("none", "")),
        (&[b"zqueue", b"inspect", b"--other", b"dir"], ("none", "")),
        (
            &[b"zqueue", b"inspect", b"--check", b"k", b"dir"],
            ("none", ""),
        ),
        (
            &[b"zqueue", b"adopt", b"old", b"new", b"63"],
            ("adopt", "new"),
        ),
        (&[b"zqueue", b"adopt", b"old", b"new", b"64"], ("none", "")),
        (&[b"zqueue", b"adopt", b"old", b"new", b"-1"], ("none", "")),
        (&[b"zqueue", b"adopt", b"old", b"new"], ("none", "")),
        (
            &[b"zqueue", b"adopt", b"old", b"new", b"5", b"6"],
            ("none", ""),
        ),
    ];
    for (words, named) in rows {
        let command = asked(&(Line { words }, rt.alloc()))?;
        assert!(rt; words_of(&command) == named);
    }
    Ok(())
}

#[test]
fn a_drill_has_a_seed_and_rounds_in_range(rt: HostRuntime) -> Result<(), Fail> {
    let rows: [(&[&[u8]], Option<(u64, u32)>); 12] = [
        (&[b"zqueue", b"drill", b"1", b"0"], Some((1, 0))),
        (
            &[b"zqueue", b"drill", b"18446744073709551615", b"1000000"],
            Some((u64::MAX, 1_000_000)),
        ),
        (&[b"zqueue", b"drill", b"007", b"010"], Some((7, 10))),
        (&[b"zqueue", b"drill"], None),
        (&[b"zqueue", b"drill", b"1"], None),
        (&[b"zqueue", b"drill", b"1", b"2", b"3"], None),
        (&[b"zqueue", b"drill", b"-1", b"2"], None),
        (&[b"zqueue", b"drill", b"+1", b"2"], None),
        (&[b"zqueue", b"drill", b"1x", b"2"], None),
        (&[b"zqueue", b"drill", b"", b"2"], None),
        (&[b"zqueue", b"drill", b"1", b"1000001"], None),
        (&[b"zqueue", b"drill", b"18446744073709551616", b"2"], None),
    ];
    for (words, numbers) in rows {
        let command = asked(&(Line { words }, rt.alloc()))?;
        assert!(rt; drill_of(&command) == numbers);
    }
    Ok(())
}

#[test]
fn a_drill_of_no_rounds_is_done(rt: HostRuntime) {
    let mut written = Vec::new(rt.alloc());
    assert_eq!(rt; drill_out(&rt, rt.alloc(), 1, 0, &mut written), 0);
    let lines = b"site 0 size 0\nsite 1 size 0\nsite 2 size 0\nequal\n";
    assert_eq!(rt; written.as_slice(), lines.as_slice());
}

#[test]
fn each_refusal_has_its_line_and_status(rt: HostRuntime) {
    let rows: [(Refusal, &[u8], u8); 4] = [
        (Refusal::Usage, b"zqueue: usage\n", 3),
        (Refusal::Settings, b"zqueue: settings\n", 3),
        (Refusal::Device, b"zqueue: device\n", 4),
        (Refusal::Memory, b"zqueue: memory\n", 4),
    ];
    for (refusal, line, status) in rows {
        let mut written = Vec::new(rt.alloc());
        assert_eq!(rt; refuse(refusal, &mut written), status);
        assert_eq!(rt; written.as_slice(), line);
    }
}

#[test]
fn a_file_that_is_no_settings_is_refused_with_its_status(rt: HostRuntime) {
    // A file that is not there, a folder, and a file without bytes, which lacks the keys that have
    // to be there.
    let rows: [(&str, &[u8], u8); 3] = [
        ("no-such-file.toml", b"zqueue: device\n", 4),
        ("/", b"zqueue: device\n", 4),
        ("/dev/null", b"zqueue: settings\n", 3),
    ];
    for (path, line, status) in rows {
        let sites = serve_file(rt, rt.alloc(), path);
        let site = serve_site_file(rt, rt.alloc(), path);
        for served in [sites, site] {
            let mut written = Vec::new(rt.alloc());
            assert_eq!(rt; conclude(served, &mut written), status);
            assert_eq!(rt; written.as_slice(), line);
        }
    }
    let mut written = Vec::new(rt.alloc());
    assert_eq!(rt; finish(Ok(()), &mut written), 0);
    assert_eq!(rt; conclude(Ok(5), &mut written), 5);
    assert!(rt; written.is_empty());
}

/// How the bytes of a settings file are read.
fn reading<S: Drop>(settings: Result<S, Unsettled>) -> &'static str {
    match settings {
        Ok(_) => "settings",
        Err(Unsettled::NotText) => "no text",
        Err(Unsettled::Fault(SettingsFault::Refused(Why::Missing(_)))) => "no such key",
        Err(Unsettled::Fault(SettingsFault::Refused(Why::Unknown(..)))) => "another key",
        Err(Unsettled::Fault(_)) => "a fault",
    }
}

#[test]
fn bytes_are_settings_or_are_refused(rt: HostRuntime) {
    // The bytes, and how they are read as the settings of several sites and as those of one.
    let rows: [(&[u8], &str, &str); 5] = [
        (b"ports = [7001]", "settings", "another key"),
        (
            b"site = 0\nport = 7001\nlisten = '127.0.0.1:7101'",
            "another key",
            "settings",
        ),
        (b"heaps = 2", "no such key", "no such key"),
        (b"ports = [7001] # \xff", "no text", "no text"),
        (b"heaps", "a fault", "a fault"),
    ];
    for (bytes, of_sites, of_site) in rows {
        assert_eq!(rt; reading(configured(rt.alloc(), bytes)), of_sites);
        assert_eq!(rt; reading(site_configured(rt.alloc(), bytes)), of_site);
    }
}

#[test]
fn pipe_answers_from_both_heaps_and_says_how_the_input_ended(rt: HostRuntime) {
    // Member a of key q lies in heap 0, and member b in heap 1.
    let rows: [(&[u8], &[u8], u8); 2] = [
        (b"*1\r\n$4\r\nPING\r\n*1\r\n", b"+PONG\r\n", 2),
        (
            b"*6\r\n$4\r\nZADD\r\n$1\r\nq\r\n$1\r\n2\r\n$1\r\na\r\n$1\r\n1\r\n$1\r\nb\r\n\
            *2\r\n$8\r\nZPOPNEAR\r\n$1\r\nq\r\n*4\r\n$6\r\nZRANGE\r\n$1\r\nq\r\n$1\r\n0\r\n$2\r\n-1\r\n",
            b":2\r\n*2\r\n$1\r\nb\r\n$1\r\n1\r\n*1\r\n$1\r\na\r\n",
            0,
        ),
    ];
    for (asked, replies, status) in rows {
        let mut asked = asked;
        let mut written = Vec::new(rt.alloc());
        assert_eq!(rt; pipe(rt.alloc(), &mut asked, &mut written), status);
        assert_eq!(rt; written.as_slice(), replies);
    }
}
