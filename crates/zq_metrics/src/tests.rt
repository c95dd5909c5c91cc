//! What is counted, and how it is shown.

use crate::{
    ClientFigures, Command, Counters, DiskFigures, Durations, Figures, HeapFigures, PeerFigures,
    SiteFigures, WalkFigures, command_of, write_page,
};
use std::test::Fail;

#[test]
fn each_command_is_counted_by_itself(rt: HostRuntime) -> Result<(), Fail> {
    for (name, command) in [
        (b"ZADD".as_slice(), Command::Zadd),
        (b"zAdd".as_slice(), Command::Zadd),
        (b"zpopmin".as_slice(), Command::Zpopmin),
        (b"ZPOPMINX".as_slice(), Command::Other),
        (b"".as_slice(), Command::Other),
    ] {
        assert!(rt; command_of(name) == command);
    }
    let counters = Counters::new(rt.alloc(), 2)?;
    let (Some(one), Some(other)) = (counters.give(), counters.give()) else {
        return Err(Fail::from("two workers"));
    };
    one.count(Command::Zadd, false);
    other.count(Command::Zadd, true);
    other.count(Command::Ping, false);
    assert!(rt; other.untimed() == 2);
    assert!(rt; other.untimed() == 0);
    let counts = counters.counts();
    assert!(rt; counts.answered(Command::Zadd) == 2);
    assert!(rt; counts.errors(Command::Zadd) == 1);
    assert!(rt; counts.answered(Command::Ping) == 1);
    Ok(())
}

#[test]
fn a_page_has_the_text_format(rt: HostRuntime) -> Result<(), Fail> {
    let alloc = rt.alloc();
    let counters = Counters::new(alloc, 1)?;
    if let Some(own) = counters.give() {
        own.count(Command::Del, false);
        own.time(own.untimed(), 60_000);
    }
    let site = SiteFigures {
        uptime: 7,
        memory: 0,
        is_ready: true,
        is_full: false,
        backlog_bytes: 0,
        backlog_operations: 0,
        parked: 0,
        dropped: 0,
        dropped_lines: 9,
    };
    let clients = ClientFigures {
        open: 1,
        accepted: 1,
        refused: 0,
        closed: counters.closed(),
    };
    let mut heaps = HeapFigures {
        made: Vec::new(alloc),
        taken: Vec::new(alloc),
        sums: Vec::new(alloc),
    };
    heaps.made.push(5)?;
    let peer = PeerFigures {
        site: 2,
        is_up: true,
        lag: 3,
        silence: 0,
        bytes_in: 10,
        bytes_out: 0,
        frames_in: 1,
        frames_out: 0,
    };
    let mut syncs = Durations::none();
    syncs.add(2_000_000);
    let mut disk = DiskFigures {
        durable: Vec::new(alloc),
        is_full: true,
        log_bytes: 800,
        written_bytes: 1_000,
        switches: 3,
        syncs,
    };
    disk.durable.push(4)?;
    let mut walk = WalkFigures {
        members: Vec::new(alloc),
        keys: Vec::new(alloc),
        bytes: Vec::new(alloc),
        age: 12,
        took: 1,
    };
    walk.members.push(6)?;
    let mut figures = Figures {
        site,
        clients,
        counts: counters.counts(),
        heaps,
        walk: Some(walk),
        disk: Some(disk),
        peers: Vec::new(alloc),
    };
    figures.peers.push(peer)?;
    let mut out = String::new(alloc);
    write_page(&mut out, &figures)?;
    for line in [
        "# TYPE zqueue_uptime_seconds gauge\nzqueue_uptime_seconds 7\n",
        "\nzqueue_commands_total{cmd=\"del\"} 1\n",
        "_bucket{le=\"0.00005\"} 0\nzqueue_request_duration_seconds_bucket{le=\"0.0001\"} 1\n",
        "_bucket{le=\"+Inf\"} 1\nzqueue_request_duration_seconds_sum 60000e-9\n",
        "\nzqueue_operations_made_total{heap=\"0\"} 5\n",
        "\nzqueue_link_bytes_total{peer=\"2\",direction=\"in\"} 10\n",
        "\nzqueue_heap_members{heap=\"0\"} 6\n",
        "\nzqueue_heap_walk_age_seconds 12\n",
        "\nzqueue_operations_durable_total{heap=\"0\"} 4\n",
        "\nzqueue_disk_full 1\n",
        "_bucket{le=\"0.001\"} 0\nzqueue_disk_sync_duration_seconds_bucket{le=\"0.0025\"} 1\n",
        "\nzqueue_log_lines_dropped_total 9\n",
    ] {
        assert!(rt; out.contains(line), "{line}");
    }
    figures.walk = None;
    figures.disk = None;
    let mut out = String::new(alloc);
    write_page(&mut out, &figures)?;
    for word in ["zqueue_heap_", "zqueue_disk_", "_durable_"] {
        assert!(rt; !out.contains(word), "{word}");
    }
    Ok(())
}
