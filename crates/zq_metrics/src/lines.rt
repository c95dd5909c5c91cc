//! The lines of the text format of Prometheus. No label has a character that would have to be
//! escaped: each is a number or a word of the program's own.

ghost use Rattle.std.specs.Prelude.{◌++◌, ◌≡◌, OnOk};
ghost use Rattle.std.specs.String.{string_bytes};
ghost use Rattle.zq_metrics.specs.Lines as wanted;

use crate::metric::Metric;
use std::alloc::AllocError;

/// The lines before those of a metric: what it says, and what it is.
#[tactic(auto, unfolding(crate::specs::Lines::head))]
pub fn head(out: &mut String, metric: Metric) -> Result<(), AllocError>
    ensures { OnOk result (string_bytes out.new ≡ string_bytes out.old ++ wanted.head metric) }
{
    let name = metric.name();
    let help = metric.help();
    let word = metric.word();
    write!(out, "# HELP {name} {help}\n# TYPE {name} {word}\n")
}

/// A line with no label.
#[tactic(auto, unfolding(crate::specs::Lines::plain))]
pub fn plain(out: &mut String, metric: Metric, value: u64) -> Result<(), AllocError>
    ensures { OnOk result
        (string_bytes out.new ≡ string_bytes out.old ++ wanted.plain metric value) }
{
    let name = metric.name();
    write!(out, "{name} {value}\n")
}

/// A line with one label, whose value is a word.
#[tactic(auto, unfolding(crate::specs::Lines::by_word))]
pub fn by_word(
    out: &mut String,
    metric: Metric,
    label: &str,
    word: &str,
    value: u64,
) -> Result<(), AllocError>
    ensures { OnOk result (string_bytes out.new
        ≡ string_bytes out.old ++ wanted.by_word metric label.now word.now value) }
{
    let name = metric.name();
    write!(out, "{name}{{{label}=\"{word}\"}} {value}\n")
}

/// A line of one heap.
#[tactic(auto, unfolding(crate::specs::Lines::by_heap))]
pub fn by_heap(out: &mut String, metric: Metric, heap: usize, value: u64) -> Result<(), AllocError>
    ensures { OnOk result (string_bytes out.new
        ≡ string_bytes out.old ++ wanted.by_heap metric heap value) }
{
    let name = metric.name();
    write!(out, "{name}{{heap=\"{heap}\"}} {value}\n")
}

/// A line of one peer.
#[tactic(auto, unfolding(crate::specs::Lines::by_peer))]
pub fn by_peer(out: &mut String, metric: Metric, peer: u8, value: u64) -> Result<(), AllocError>
    ensures { OnOk result (string_bytes out.new
        ≡ string_bytes out.old ++ wanted.by_peer metric peer value) }
{
    let name = metric.name();
    write!(out, "{name}{{peer=\"{peer}\"}} {value}\n")
}

/// A line of one peer and one way.
#[tactic(auto, unfolding(crate::specs::Lines::one_way))]
pub fn one_way(
    out: &mut String,
    metric: Metric,
    peer: u8,
    way: &str,
    value: u64,
) -> Result<(), AllocError>
    ensures { OnOk result (string_bytes out.new
        ≡ string_bytes out.old ++ wanted.one_way metric peer way.now value) }
{
    let name = metric.name();
    write!(out, "{name}{{peer=\"{peer}\",")?;
    write!(out, "direction=\"{way}\"}} {value}\n")
}

/// Two lines of one peer: what came from it, and what went to it.
#[tactic(auto, unfolding(crate::specs::Lines::both_ways))]
pub fn both_ways(
    out: &mut String,
    metric: Metric,
    peer: u8,
    came: u64,
    went: u64,
) -> Result<(), AllocError>
    ensures { OnOk result (string_bytes out.new
        ≡ string_bytes out.old ++ wanted.both_ways metric peer came went) }
{
    one_way(out, metric, peer, "in", came)?;
    one_way(out, metric, peer, "out", went)
}

/// A line of one bound of a histogram.
#[tactic(auto, unfolding(crate::specs::Lines::bucket))]
pub fn bucket(out: &mut String, metric: Metric, bound: &str, value: u64) -> Result<(), AllocError>
    ensures { OnOk result (string_bytes out.new
        ≡ string_bytes out.old ++ wanted.bucket metric bound.now value) }
{
    let name = metric.name();
    write!(out, "{name}_bucket{{le=\"{bound}\"}} {value}\n")
}

/// The last lines of a histogram: the sum of all, which is given in nanoseconds, and how many there
/// are.
#[tactic(auto, unfolding(crate::specs::Lines::sum_and_count))]
pub fn sum_and_count(
    out: &mut String,
    metric: Metric,
    nanoseconds: u64,
    count: u64,
) -> Result<(), AllocError>
    ensures { OnOk result (string_bytes out.new
        ≡ string_bytes out.old ++ wanted.sum_and_count metric nanoseconds count) }
{
    let name = metric.name();
    write!(out, "{name}_sum {nanoseconds}e-9\n")?;
    write!(out, "{name}_count {count}\n")
}
