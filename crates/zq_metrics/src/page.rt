//! All figures of a site in the text format of Prometheus.

ghost use Rattle.std.specs.Prelude.{◌++◌, ◌≡◌, IfOk, OnOk};
ghost use Rattle.std.specs.String.{string_bytes};
ghost use Rattle.zq_metrics.specs.Page as wanted;

use crate::closing::{CLOSINGS, reason_at};
use crate::command::{COMMANDS, label_at};
use crate::counts::Counts;
use crate::figures::{
    ClientFigures, DiskFigures, Figures, HeapFigures, PeerFigures, SiteFigures, WalkFigures,
};
use crate::lines;
use crate::metric::Metric;
use crate::timing::{BUCKETS, Durations, bound_text};
use std::alloc::AllocError;

/// Appends all figures of a site, in the text format of Prometheus.
///
/// `AllocError`: a part of them may stand behind what was there.
pub fn write_page(out: &mut String, figures: &Figures) -> Result<(), AllocError>
    ensures { OnOk result
        (string_bytes out.new ≡ string_bytes out.old ++ wanted.page figures.now) }
{
    write_service(out, figures)?;
    write_contents(out, figures)?;
    write_replication(out, figures)
}

/// Appends how the site is, and how its clients are served.
#[tactic(auto, unfolding(crate::specs::Page::service))]
fn write_service(out: &mut String, figures: &Figures) -> Result<(), AllocError>
    ensures { OnOk result
        (string_bytes out.new ≡ string_bytes out.old ++ wanted.service figures.now) }
{
    write_state(out, &figures.site)?;
    write_requests(out, &figures.counts)?;
    write_duration(out, &figures.counts)?;
    write_clients(out, &figures.clients)
}

/// Appends what the heaps have, and what the disk has.
#[tactic(auto, unfolding(crate::specs::Page::contents))]
fn write_contents(out: &mut String, figures: &Figures) -> Result<(), AllocError>
    ensures { OnOk result
        (string_bytes out.new ≡ string_bytes out.old ++ wanted.contents figures.now) }
{
    write_heaps(out, &figures.heaps)?;
    write_last_walk(out, &figures.walk)?;
    write_kept(out, &figures.disk)
}

/// Appends what is linked, what is kept for peers, and what was dropped.
#[tactic(auto, unfolding(crate::specs::Page::replication))]
fn write_replication(out: &mut String, figures: &Figures) -> Result<(), AllocError>
    ensures { OnOk result
        (string_bytes out.new ≡ string_bytes out.old ++ wanted.replication figures.now) }
{
    write_links(out, &figures.peers)?;
    write_backlog(out, &figures.site)
}

/// Appends a metric that has one line.
#[tactic(auto, unfolding(crate::specs::Page::one))]
fn write_one(out: &mut String, metric: Metric, value: u64) -> Result<(), AllocError>
    ensures { OnOk result
        (string_bytes out.new ≡ string_bytes out.old ++ wanted.one metric value) }
{
    lines::head(out, metric)?;
    lines::plain(out, metric, value)
}

/// 1 where something is so, else 0.
fn number(is_so: bool) -> u64
    ensures { result ≡ wanted.number is_so }
{
    if is_so { 1 } else { 0 }
}

/// Appends what the program is, and how the site is.
#[tactic(auto, unfolding(crate::specs::Page::state))]
fn write_state(out: &mut String, site: &SiteFigures) -> Result<(), AllocError>
    ensures { OnOk result
        (string_bytes out.new ≡ string_bytes out.old ++ wanted.state site.now) }
{
    lines::head(out, Metric::Build)?;
    lines::by_word(out, Metric::Build, "version", "0.3.0", 1)?;
    write_one(out, Metric::Uptime, site.uptime)?;
    write_one(out, Metric::Memory, site.memory)?;
    write_one(out, Metric::Ready, number(site.is_ready))?;
    write_one(out, Metric::Full, number(site.is_full))
}

/// Appends how many requests were answered, and how many by an error.
#[tactic(auto, unfolding(crate::specs::Page::requests))]
fn write_requests(out: &mut String, counts: &Counts) -> Result<(), AllocError>
    ensures { OnOk result
        (string_bytes out.new ≡ string_bytes out.old ++ wanted.requests counts.now) }
{
    lines::head(out, Metric::Commands)?;
    write_commands(out, Metric::Commands, &counts.answered)?;
    lines::head(out, Metric::Errors)?;
    write_commands(out, Metric::Errors, &counts.errors)
}

/// Appends a line for each command.
#[tactic(auto, unfolding(crate::specs::Page::commands_before))]
fn write_commands(
    out: &mut String,
    metric: Metric,
    values: &[u64; COMMANDS],
) -> Result<(), AllocError>
    ensures { OnOk result (string_bytes out.new
        ≡ string_bytes out.old ++ wanted.commands_before metric values.now 14) }
{
    for place in 0..COMMANDS {
        lines::by_word(out, metric, "cmd", label_at(place), values[place])?;
    }
    Ok(())
}

/// Appends how long requests took.
#[tactic(auto, unfolding(crate::specs::Page::duration))]
fn write_duration(out: &mut String, counts: &Counts) -> Result<(), AllocError>
    ensures { OnOk result
        (string_bytes out.new ≡ string_bytes out.old ++ wanted.duration counts.now) }
{
    write_histogram(out, Metric::Duration, &counts.buckets, counts.nanoseconds)
}

/// Appends how long things took: those within each bound, and how many nanoseconds all together.
#[tactic(auto, unfolding(crate::specs::Page::histogram))]
fn write_histogram(
    out: &mut String,
    metric: Metric,
    buckets: &[u64; BUCKETS],
    nanoseconds: u64,
) -> Result<(), AllocError>
    ensures { OnOk result (string_bytes out.new
        ≡ string_bytes out.old ++ wanted.histogram metric buckets.now nanoseconds) }
{
    lines::head(out, metric)?;
    let count = write_buckets(out, metric, buckets)?;
    lines::sum_and_count(out, metric, nanoseconds, count)
}

/// Appends for each bound how many took no longer, and gives how many there are.
#[tactic(auto, unfolding(crate::specs::Page::buckets_before, crate::specs::Page::sum_before))]
fn write_buckets(
    out: &mut String,
    metric: Metric,
    buckets: &[u64; BUCKETS],
) -> Result<u64, AllocError>
    ensures lines { OnOk result (string_bytes out.new
        ≡ string_bytes out.old ++ wanted.buckets_before metric buckets.now 16) }
    ensures count { IfOk result (λ count. count ≡ wanted.sum_before buckets.now 16) }
{
    let mut sum = 0u64;
    for place in 0..BUCKETS {
        sum = sum.wrapping_add(buckets[place]);
        lines::bucket(out, metric, bound_text(place), sum)?;
    }
    Ok(sum)
}

/// Appends how many connections clients have and had.
#[tactic(auto, unfolding(crate::specs::Page::clients))]
fn write_clients(out: &mut String, clients: &ClientFigures) -> Result<(), AllocError>
    ensures { OnOk result
        (string_bytes out.new ≡ string_bytes out.old ++ wanted.clients clients.now) }
{
    write_one(out, Metric::Connections, clients.open)?;
    write_one(out, Metric::Accepted, clients.accepted)?;
    write_one(out, Metric::Refused, clients.refused)?;
    lines::head(out, Metric::Closed)?;
    write_closed(out, &clients.closed)
}

/// Appends how many connections were closed, by reasons.
#[tactic(auto, unfolding(crate::specs::Page::closed_before))]
fn write_closed(out: &mut String, values: &[u64; CLOSINGS]) -> Result<(), AllocError>
    ensures { OnOk result (string_bytes out.new
        ≡ string_bytes out.old ++ wanted.closed_before values.now 5) }
{
    for place in 0..CLOSINGS {
        lines::by_word(
            out,
            Metric::Closed,
            "reason",
            reason_at(place),
            values[place],
        )?;
    }
    Ok(())
}

/// Appends how many operations the heaps have.
#[tactic(auto, unfolding(crate::specs::Page::heaps))]
fn write_heaps(out: &mut String, heaps: &HeapFigures) -> Result<(), AllocError>
    ensures { OnOk result
        (string_bytes out.new ≡ string_bytes out.old ++ wanted.heaps heaps.now) }
{
    lines::head(out, Metric::Made)?;
    write_each_heap(out, Metric::Made, &heaps.made)?;
    lines::head(out, Metric::Taken)?;
    write_each_heap(out, Metric::Taken, &heaps.taken)?;
    lines::head(out, Metric::VectorSum)?;
    write_each_heap(out, Metric::VectorSum, &heaps.sums)
}

/// Appends a line for each heap.
#[tactic(auto, unfolding(crate::specs::Page::heaps_before))]
fn write_each_heap(out: &mut String, metric: Metric, values: &[u64]) -> Result<(), AllocError>
    ensures { OnOk result (string_bytes out.new
        ≡ string_bytes out.old ++ wanted.each_heap metric values.now) }
{
    for heap in 0..values.len() {
        lines::by_heap(out, metric, heap, values[heap])?;
    }
    Ok(())
}

/// Appends what the last walk over the heaps found, where one has ended.
fn write_last_walk(out: &mut String, walk: &Option<WalkFigures>) -> Result<(), AllocError>
    ensures { OnOk result
        (string_bytes out.new ≡ string_bytes out.old ++ wanted.last_walk walk.now) }
{
    match walk {
        Some(walk) => write_walk(out, walk),
        None => Ok(()),
    }
}

/// Appends what a walk over the heaps found.
#[tactic(auto, unfolding(crate::specs::Page::walk))]
fn write_walk(out: &mut String, walk: &WalkFigures) -> Result<(), AllocError>
    ensures { OnOk result
        (string_bytes out.new ≡ string_bytes out.old ++ wanted.walk walk.now) }
{
    lines::head(out, Metric::Members)?;
    write_each_heap(out, Metric::Members, &walk.members)?;
    lines::head(out, Metric::Keys)?;
    write_each_heap(out, Metric::Keys, &walk.keys)?;
    lines::head(out, Metric::Bytes)?;
    write_each_heap(out, Metric::Bytes, &walk.bytes)?;
    write_one(out, Metric::WalkAge, walk.age)?;
    write_one(out, Metric::WalkDuration, walk.took)
}

/// Appends the figures of links.
#[tactic(auto, unfolding(crate::specs::Page::links))]
fn write_links(out: &mut String, peers: &[PeerFigures]) -> Result<(), AllocError>
    ensures { OnOk result
        (string_bytes out.new ≡ string_bytes out.old ++ wanted.links peers.now) }
{
    lines::head(out, Metric::LinkUp)?;
    write_ups(out, peers)?;
    lines::head(out, Metric::LinkLag)?;
    write_lags(out, peers)?;
    lines::head(out, Metric::LastFrame)?;
    write_silences(out, peers)?;
    lines::head(out, Metric::LinkBytes)?;
    write_bytes(out, peers)?;
    lines::head(out, Metric::LinkFrames)?;
    write_frames(out, peers)
}

#[tactic(auto, unfolding(crate::specs::Page::ups))]
fn write_ups(out: &mut String, peers: &[PeerFigures]) -> Result<(), AllocError>
    ensures { OnOk result
        (string_bytes out.new ≡ string_bytes out.old ++ wanted.ups peers.now) }
{
    for peer in peers {
        lines::by_peer(out, Metric::LinkUp, peer.site, number(peer.is_up))?;
    }
    Ok(())
}

#[tactic(auto, unfolding(crate::specs::Page::lags))]
fn write_lags(out: &mut String, peers: &[PeerFigures]) -> Result<(), AllocError>
    ensures { OnOk result
        (string_bytes out.new ≡ string_bytes out.old ++ wanted.lags peers.now) }
{
    for peer in peers {
        lines::by_peer(out, Metric::LinkLag, peer.site, peer.lag)?;
    }
    Ok(())
}

#[tactic(auto, unfolding(crate::specs::Page::silences))]
fn write_silences(out: &mut String, peers: &[PeerFigures]) -> Result<(), AllocError>
    ensures { OnOk result
        (string_bytes out.new ≡ string_bytes out.old ++ wanted.silences peers.now) }
{
    for peer in peers {
        lines::by_peer(out, Metric::LastFrame, peer.site, peer.silence)?;
    }
    Ok(())
}

#[tactic(auto, unfolding(crate::specs::Page::bytes))]
fn write_bytes(out: &mut String, peers: &[PeerFigures]) -> Result<(), AllocError>
    ensures { OnOk result
        (string_bytes out.new ≡ string_bytes out.old ++ wanted.bytes peers.now) }
{
    for peer in peers {
        lines::both_ways(
            out,
            Metric::LinkBytes,
            peer.site,
            peer.bytes_in,
            peer.bytes_out,
        )?;
    }
    Ok(())
}

#[tactic(auto, unfolding(crate::specs::Page::frames))]
fn write_frames(out: &mut String, peers: &[PeerFigures]) -> Result<(), AllocError>
    ensures { OnOk result
        (string_bytes out.new ≡ string_bytes out.old ++ wanted.frames peers.now) }
{
    for peer in peers {
        lines::both_ways(
            out,
            Metric::LinkFrames,
            peer.site,
            peer.frames_in,
            peer.frames_out,
        )?;
    }
    Ok(())
}

/// Appends what waits, and what was dropped.
#[tactic(auto, unfolding(crate::specs::Page::backlog))]
fn write_backlog(out: &mut String, site: &SiteFigures) -> Result<(), AllocError>
    ensures { OnOk result
        (string_bytes out.new ≡ string_bytes out.old ++ wanted.backlog site.now) }
{
    write_one(out, Metric::BacklogBytes, site.backlog_bytes)?;
    write_one(out, Metric::BacklogOperations, site.backlog_operations)?;
    write_one(out, Metric::Parked, site.parked)?;
    write_one(out, Metric::Dropped, site.dropped)?;
    write_one(out, Metric::DroppedLines, site.dropped_lines)
}

/// Appends the figures of the log on disk, where the site keeps one.
fn write_kept(out: &mut String, disk: &Option<DiskFigures>) -> Result<(), AllocError>
    ensures { OnOk result
        (string_bytes out.new ≡ string_bytes out.old ++ wanted.kept disk.now) }
{
    match disk {
        Some(disk) => write_disk(out, disk),
        None => Ok(()),
    }
}

/// Appends the figures of the log on disk.
#[tactic(auto, unfolding(crate::specs::Page::disk))]
fn write_disk(out: &mut String, disk: &DiskFigures) -> Result<(), AllocError>
    ensures { OnOk result
        (string_bytes out.new ≡ string_bytes out.old ++ wanted.disk disk.now) }
{
    lines::head(out, Metric::Durable)?;
    write_each_heap(out, Metric::Durable, &disk.durable)?;
    write_one(out, Metric::DiskFull, number(disk.is_full))?;
    write_one(out, Metric::LogBytes, disk.log_bytes)?;
    write_one(out, Metric::WrittenBytes, disk.written_bytes)?;
    write_one(out, Metric::Switches, disk.switches)?;
    write_syncs(out, &disk.syncs)
}

/// Appends how long syncs took.
fn write_syncs(out: &mut String, syncs: &Durations) -> Result<(), AllocError>
    ensures { OnOk result
        (string_bytes out.new ≡ string_bytes out.old ++ wanted.syncs syncs.now) }
{
    write_histogram(out, Metric::SyncDuration, &syncs.buckets, syncs.nanoseconds)
}
