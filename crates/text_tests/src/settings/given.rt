//! The values of texts, at the bounds of each key and where keys are missing.

use super::{Limits, has_limits};
use std::test::Fail;
use zq_dots::Rule;
use zq_settings::{LogLevel, Port, Settings, settings};

struct Row {
    text: &'static str,
    ports: &'static [u64],
    heaps: u64,
    workers: u64,
    connections: Option<u64>,
    limits: Limits,
    log_level: LogLevel,
    seed: u64,
    rule: Rule,
}

/// What they are where the keys are missing.
const LIMITS: Limits = (10_000, 0, 60, 268_435_456);

const ROWS: [Row; 6] = [
    // Only the ports, at their bounds.
    Row {
        text: "ports = [1, 65535]",
        ports: &[1, 65535],
        heaps: 4,
        workers: 4,
        connections: None,
        limits: LIMITS,
        log_level: LogLevel::Info,
        seed: 1,
        rule: Rule::High,
    },
    // The least of each key.
    Row {
        text: "ports = [7001]\nheaps = 2\nworkers = 1\nconnections = 0\nclients = 1\ntimeout = 0\nwrite_timeout = 0\noutput = 1048576\nlog_level = \"warn\"\nseed = 0\nrule = \"HIGH\"\n",
        ports: &[7001],
        heaps: 2,
        workers: 1,
        connections: None,
        limits: (1, 0, 0, 1_048_576),
        log_level: LogLevel::Warn,
        seed: 0,
        rule: Rule::High,
    },
    // The greatest of each key, in another order.
    Row {
        text: "rule = \"LOW\"\nlog_level = \"debug\"\nseed = 9223372036854775807\noutput = 1099511627776\nwrite_timeout = 1000000\ntimeout = 1000000\nclients = 1000000\nconnections = 1000000\nworkers = 64\nheaps = 16\nports = [7001]\n",
        ports: &[7001],
        heaps: 16,
        workers: 64,
        connections: Some(1_000_000),
        limits: (1_000_000, 1_000_000, 1_000_000, 1_099_511_627_776),
        log_level: LogLevel::Debug,
        seed: 9_223_372_036_854_775_807,
        rule: Rule::Low,
    },
    // One connection, and the other ways in which TOML writes numbers, names and texts.
    Row {
        text: "# two sites\n\"ports\" = [\n  7_002, # site 0\n  0x1b59,\n]\noutput = 0x20_0000\nwrite_timeout = 5\ntimeout = 300\nclients = 2\nconnections = 1\nlog_level = 'info'\nrule = 'LOW'\n",
        ports: &[7002, 7001],
        heaps: 4,
        workers: 4,
        connections: Some(1),
        limits: (2, 300, 5, 2_097_152),
        log_level: LogLevel::Info,
        seed: 1,
        rule: Rule::Low,
    },
    // As many ports as there may be.
    Row {
        text: "ports = [7001, 7002, 7003, 7004, 7005, 7006, 7007, 7008, 7009, 7010, 7011, 7012, 7013, 7014, 7015, 7016, 7017, 7018, 7019, 7020, 7021, 7022, 7023, 7024, 7025, 7026, 7027, 7028, 7029, 7030, 7031, 7032, 7033, 7034, 7035, 7036, 7037, 7038, 7039, 7040, 7041, 7042, 7043, 7044, 7045, 7046, 7047, 7048, 7049, 7050, 7051, 7052, 7053, 7054, 7055, 7056, 7057, 7058, 7059, 7060, 7061, 7062, 7063, 7064]",
        ports: &[
            7001, 7002, 7003, 7004, 7005, 7006, 7007, 7008, 7009, 7010, 7011, 7012, 7013, 7014,
            7015, 7016, 7017, 7018, 7019, 7020, 7021, 7022, 7023, 7024, 7025, 7026, 7027, 7028,
            7029, 7030, 7031, 7032, 7033, 7034, 7035, 7036, 7037, 7038, 7039, 7040, 7041, 7042,
            7043, 7044, 7045, 7046, 7047, 7048, 7049, 7050, 7051, 7052, 7053, 7054, 7055, 7056,
            7057, 7058, 7059, 7060, 7061, 7062, 7063, 7064,
        ],
        heaps: 4,
        workers: 4,
        connections: None,
        limits: LIMITS,
        log_level: LogLevel::Info,
        seed: 1,
        rule: Rule::High,
    },
    // Only one key beside the ports.
    Row {
        text: "ports = [7001]\nheaps = 3",
        ports: &[7001],
        heaps: 3,
        workers: 4,
        connections: None,
        limits: LIMITS,
        log_level: LogLevel::Info,
        seed: 1,
        rule: Rule::High,
    },
];

fn has_ports(ports: &[Port], numbers: &[u64]) -> bool {
    ports.len() == numbers.len()
        && ports
            .iter()
            .zip(numbers)
            .all(|(port, number)| port.value() == *number)
}

fn is_row(settings: &Settings, row: &Row) -> bool {
    has_ports(settings.ports.as_slice(), row.ports)
        && settings.heaps.value() == row.heaps
        && settings.workers.value() == row.workers
        && settings.connections.map(|count| count.value()) == row.connections
        && has_limits(&settings.limits, row.limits)
        && settings.log_level == row.log_level
        && settings.seed.value() == row.seed
        && settings.rule == row.rule
}

#[test]
fn each_text_has_its_settings(rt: HostRuntime) -> Result<(), Fail> {
    for row in ROWS.iter() {
        let given = settings(rt.alloc(), row.text)?;
        assert!(rt; is_row(&given, row), "of {}", row.text);
    }
    Ok(())
}
