//! Mailboxes, links without faults, and the other sites.

mod waking;

use crate::{Carry, Mailbox, Straight, others};
use std::alloc::Global;
use std::process::Abort;
use std::sync::Wait;
use std::test::Fail;
use waking::{CALLS, woken_by};
use zq_dots::SiteNo;
use zq_links::Message;

/// A letter for each kind of message.
fn letter_of(message: &Message) -> u8 {
    match message {
        Message::Tick => b't',
        Message::Frame { .. } => b'f',
        Message::Stop => b's',
    }
}

/// The letter of the next message.
fn next_letter<R: Wait>(rt: &R, mailbox: &Mailbox) -> u8 {
    let (message, _taken) = mailbox.take(rt);
    letter_of(&message)
}

/// A site.
fn site(number: u8) -> Result<SiteNo, Fail> {
    Ok(SiteNo::new(number).ok_or("a site")?)
}

/// Gives a mailbox in which so many messages may wait two frames more, and looks at what is taken
/// then.
fn check_full<R: Wait + Abort>(rt: &R, alloc: Global, most: u8) -> Result<(), Fail> {
    let mailbox = Mailbox::new(alloc, usize::from(most))?;
    let from = site(1)?;
    for _frame in 0..most.saturating_add(2) {
        assert!(rt; mailbox.give(rt, from, Vec::new(alloc)).had_memory());
    }
    for frame in 0..most {
        assert!(rt;
            next_letter(rt, &mailbox) == b'f',
            "frame {frame} of {most}"
        );
    }
    assert!(rt; next_letter(rt, &mailbox) == b't', "{most} frames");
    mailbox.tick(rt);
    mailbox.tick(rt);
    mailbox.stop(rt);
    for want in [b't', b's', b's'] {
        assert!(rt; next_letter(rt, &mailbox) == want, "{most} frames");
    }
    Ok(())
}

#[test]
fn as_many_frames_wait_as_may_and_one_tick(rt: HostRuntime) -> Result<(), Fail> {
    for most in [1, 3, 100] {
        check_full(&rt, rt.alloc(), most)?;
    }
    Ok(())
}

#[test]
fn each_call_wakes_who_waits_in_a_mailbox(rt: HostRuntime) -> Result<(), Fail> {
    for (call, want) in CALLS {
        let letter = woken_by(&rt, rt.alloc(), site(1)?, call)?;
        assert!(rt; letter == want);
    }
    Ok(())
}

#[test]
fn a_frame_comes_to_the_site_that_it_goes_to(rt: HostRuntime) -> Result<(), Fail> {
    let mut mailboxes = Vec::new(rt.alloc());
    for _site in 0..3 {
        mailboxes.push(Mailbox::new(rt.alloc(), 2)?)?;
    }
    let mut carrier = Straight::new(&rt, site(1)?, &mailboxes);
    assert!(rt; carrier.carry(rt.alloc(), site(2)?, Vec::new(rt.alloc())));
    assert!(rt; carrier.carry(rt.alloc(), site(3)?, Vec::new(rt.alloc())));
    for (mailbox, want) in mailboxes.iter().zip([b's', b's', b'f']) {
        mailbox.stop(&rt);
        assert!(rt; next_letter(&rt, mailbox) == want);
    }
    Ok(())
}

/// The sites beside site 1 of three.
#[tactic(auto, unfolding(zq_model::specs::Sets::SITES))]
fn others_of_one(alloc: Global) -> Result<Vec<SiteNo>, Fail> {
    Ok(others(alloc, site(1)?, 3)?)
}

#[test]
fn the_other_sites_are_in_rising_order(rt: HostRuntime) -> Result<(), Fail> {
    let found = others_of_one(rt.alloc())?;
    let wanted = [SiteNo::new(0), SiteNo::new(2)];
    assert_eq!(rt; found.len(), 2);
    for (site, want) in found.iter().zip(wanted) {
        assert!(rt; Some(*site) == want);
    }
    Ok(())
}
