//! A queue over a device that takes lines, or takes none.

use crate::{LogQueue, Moment, QueueLog, write_lines};
use log::{Level, LevelFilter, Logged, debug, info, warn};
use std::alloc::Global;
use std::io::Write;
use std::sync::atomic::Ordering;
use std::sync::{Arc, Mutex, Wait};
use std::test::Fail;
use std::thread::{JoinHandle, Threads};
use std::time::{Clock, Duration};
use std::{io, thread};

/// A device that takes bytes while nobody else holds its lock.
#[derive(Drop)]
struct Device<R: Wait> {
    rt: R,
    taken: Arc<Mutex<Vec<u8>>>,
}

impl<R: Wait> Write for Device<R> {
    fn write(&mut self, bytes: &[u8]) -> io::Result<usize> {
        let mut taken = self.taken.lock(&self.rt);
        taken.extend_from_slice(bytes)?;
        Ok(bytes.len())
    }

    fn flush(&mut self) -> io::Result<()> {
        Ok(())
    }
}

/// A thread that writes the lines of the queue to the device.
fn write_on<R: Threads + Wait + Clock + Copy + Send + 'static>(
    rt: R,
    alloc: Global,
    queue: &Arc<LogQueue>,
    taken: &Arc<Mutex<Vec<u8>>>,
) -> Result<JoinHandle<()>, Fail> {
    let queue = Arc::try_clone(queue)?;
    let taken = Arc::try_clone(taken)?;
    let writer = move || write_lines(&rt, alloc, &*queue, Device { rt, taken });
    Ok(thread::spawn(&rt, writer)?)
}

/// How often these words stand in the text.
fn times(text: &[u8], words: &[u8]) -> usize {
    let mut count = 0usize;
    for at in 0..text.len() {
        if text[at..].starts_with(words) {
            count = count.saturating_add(1);
        }
    }
    count
}

#[test]
fn what_logs_does_not_wait_for_the_device(rt: HostRuntime) -> Result<(), Fail> {
    let taken = Arc::new(rt.alloc(), Mutex::new(Vec::new(rt.alloc())))?;
    let queue = Arc::new(rt.alloc(), LogQueue::new(rt.alloc()))?;
    let stuck = taken.lock(&rt);
    let writer = write_on(rt, rt.alloc(), &queue, &taken)?;
    for line in 0..2_000u64 {
        let milli = line * 10_000;
        let moment = Moment {
            milli,
            steady: milli,
        };
        queue.log(&rt, moment, Level::Warn, b"site 0 protocol fault", b"");
    }
    assert!(rt; !queue.end(&rt, Duration::from_millis(50)));
    drop(stuck);
    assert!(rt; queue.end(&rt, Duration::from_secs(50)));
    writer.join(&rt);
    let text = taken.lock(&rt);
    let faults = times(text.as_slice(), b"Z WARN site 0 protocol fault\n");
    // 1,024 lines wait; one more may be at the device, which it came to sooner or later.
    assert!(rt; faults == 1_024 || faults == 1_025);
    let dropped = queue.dropped().load(Ordering::SeqCst);
    assert!(rt; dropped.saturating_add(faults as u64) == 2_000);
    let losses = times(text.as_slice(), b" lines dropped\n");
    assert!(rt; losses == 1 || losses == 2);
    Ok(())
}

#[test]
fn what_is_logged_is_written_up_to_the_level(rt: HostRuntime) -> Result<(), Fail> {
    let taken = Arc::new(rt.alloc(), Mutex::new(Vec::new(rt.alloc())))?;
    let queue = Arc::new(rt.alloc(), LogQueue::new(rt.alloc()))?;
    let log = Logged::new(
        rt,
        LevelFilter::Info,
        QueueLog::new(&rt, rt.alloc(), &*queue),
    );
    let writer = write_on(rt, rt.alloc(), &queue, &taken)?;
    for port in 0..25u64 {
        warn!(log; "site 0 refuses a peer at 10.0.0.1:{port}");
    }
    debug!(log; "site 0 says more");
    info!(log; peer = 1u8, reason = "it is there"; "site=0 link up");
    queue.put(&rt, Vec::from_slice(rt.alloc(), b"zqueue: number\n")?);
    assert!(rt; queue.end(&rt, Duration::from_secs(50)));
    writer.join(&rt);
    let text = taken.lock(&rt);
    let rows: [(&[u8], usize); 5] = [
        (b"Z WARN site 0 refuses a peer at 10.0.0.1:", 10),
        (
            b"Z INFO site=0 link up peer=1 reason=\"it is there\"\nzqueue: number\n",
            1,
        ),
        (b"DEBUG", 0),
        (b"\n", 12),
        (b"zqueue: number\n", 1),
    ];
    for (words, count) in rows {
        assert!(rt; times(text.as_slice(), words) == count);
    }
    Ok(())
}
