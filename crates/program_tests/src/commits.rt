//! Tickets of those who wait for the disk.

use std::sync::Wait;
use std::test::Fail;
use std::thread;
use std::thread::Threads;
use std::time::{Clock, Duration};
use zq_serve::Commits;

/// What is done a moment after two wait.
#[derive(Clone, Copy, Debug, PartialEq, Eq)]
enum Word {
    /// The round of the second ticket is written.
    Last,
    /// No round is written any more.
    Over,
}

/// Has the word said after a moment.
fn say<R: Clock + Wait>(rt: &R, commits: &Commits, last: u64, word: Word) {
    let _ = thread::sleep(rt, Duration::from_millis(2));
    match word {
        Word::Last => {
            let _ = commits.end(rt, last);
        }
        Word::Over => commits.close(rt),
    }
}

/// What two that wait are told.
fn told<R: Clock + Threads + Wait + Sync>(rt: &R, word: Word) -> (bool, bool) {
    let commits = Commits::new();
    let (first, second) = (commits.ask(rt), commits.ask(rt));
    let last = commits.begin(rt);
    let (told, ()) = thread::join(
        rt,
        || (commits.wait(rt, first), commits.wait(rt, second)),
        || say(rt, &commits, last, word),
    );
    told
}

#[test]
fn one_round_is_for_all_that_came_before_it(rt: HostRuntime) -> Result<(), Fail> {
    assert!(rt; told(&rt, Word::Last) == (true, true));
    Ok(())
}

#[test]
fn nobody_waits_once_nothing_is_written(rt: HostRuntime) -> Result<(), Fail> {
    assert!(rt; told(&rt, Word::Over) == (false, false));
    Ok(())
}

#[test]
fn a_round_is_not_for_who_came_after_it_began(rt: HostRuntime) -> Result<(), Fail> {
    let commits = Commits::new();
    let early = commits.ask(&rt);
    let ticket = commits.begin(&rt);
    let late = commits.ask(&rt);
    // Both waited as the round was ended.
    assert!(rt; commits.end(&rt, ticket) == 2);
    commits.close(&rt);
    assert!(rt; commits.wait(&rt, early));
    assert!(rt; !commits.wait(&rt, late));
    Ok(())
}

#[test]
fn a_round_waits_for_so_many_and_not_for_longer(rt: HostRuntime) -> Result<(), Fail> {
    let commits = Commits::new();
    let _ = commits.ask(&rt);
    commits.gather(&rt, 1, Duration::from_secs(60));
    commits.gather(&rt, 2, Duration::from_millis(1));
    commits.close(&rt);
    commits.gather(&rt, 2, Duration::from_secs(60));
    Ok(())
}
