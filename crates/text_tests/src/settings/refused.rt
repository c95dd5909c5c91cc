//! Texts that are refused, and the words that say why.

use std::alloc::Global;
use std::test::Fail;
use zq_settings::{SettingsFault, settings};

const REFUSALS: [(&str, &str); 71] = [
    // No TOML.
    (
        "ports",
        "line 1 is not TOML: key with no value, expected `=`",
    ),
    (
        "ports = [7001]\nheaps =\n",
        "line 2 is not TOML: invalid value, expected a string, number, boolean, date-time, array or inline table",
    ),
    (
        "ports = [7001]\n\nports = [7002]\n",
        "line 3 is not TOML: duplicate key",
    ),
    (
        "ports = [7001]\nseed = 9223372036854775808",
        "line 2 is not TOML: number out of range",
    ),
    // Other keys.
    (
        "ports = [7001]\nport = 1",
        "\"port\" is not a key of settings, which are ports, heaps, workers, connections, clients, timeout, write_timeout, output, log_level, seed and rule",
    ),
    (
        "ports = [7001]\nlink_backlog = 67108864",
        "\"link_backlog\" is not a key of settings, which are ports, heaps, workers, connections, clients, timeout, write_timeout, output, log_level, seed and rule",
    ),
    (
        "Ports = [7001]",
        "\"Ports\" is not a key of settings, which are ports, heaps, workers, connections, clients, timeout, write_timeout, output, log_level, seed and rule",
    ),
    (
        "zeal = 1\nports = [7001]\nalpha = 1",
        "\"alpha\" is not a key of settings, which are ports, heaps, workers, connections, clients, timeout, write_timeout, output, log_level, seed and rule",
    ),
    (
        "\"two\\nlines\" = 1",
        "\"two\\nlines\" is not a key of settings, which are ports, heaps, workers, connections, clients, timeout, write_timeout, output, log_level, seed and rule",
    ),
    (
        "[serve]\nports = [7001]",
        "\"serve\" is not a key of settings, which are ports, heaps, workers, connections, clients, timeout, write_timeout, output, log_level, seed and rule",
    ),
    // Ports.
    (
        "",
        "ports is missing: it takes an array of 1 to 64 different port numbers from 1 to 65535",
    ),
    (
        "heaps = 4",
        "ports is missing: it takes an array of 1 to 64 different port numbers from 1 to 65535",
    ),
    (
        "ports = 7001",
        "ports has a value of another kind: it takes an array of 1 to 64 different port numbers from 1 to 65535",
    ),
    (
        "ports = \"7001\"",
        "ports has a value of another kind: it takes an array of 1 to 64 different port numbers from 1 to 65535",
    ),
    (
        "ports = [7001, \"7002\"]",
        "ports has a value of another kind: it takes an array of 1 to 64 different port numbers from 1 to 65535",
    ),
    (
        "ports = [7001.0]",
        "ports has a value of another kind: it takes an array of 1 to 64 different port numbers from 1 to 65535",
    ),
    (
        "ports = [[7001]]",
        "ports has a value of another kind: it takes an array of 1 to 64 different port numbers from 1 to 65535",
    ),
    (
        "ports = []",
        "ports has 0 entries: it takes an array of 1 to 64 different port numbers from 1 to 65535",
    ),
    (
        "ports = [7001, 7002, 7003, 7004, 7005, 7006, 7007, 7008, 7009, 7010, 7011, 7012, 7013, 7014, 7015, 7016, 7017, 7018, 7019, 7020, 7021, 7022, 7023, 7024, 7025, 7026, 7027, 7028, 7029, 7030, 7031, 7032, 7033, 7034, 7035, 7036, 7037, 7038, 7039, 7040, 7041, 7042, 7043, 7044, 7045, 7046, 7047, 7048, 7049, 7050, 7051, 7052, 7053, 7054, 7055, 7056, 7057, 7058, 7059, 7060, 7061, 7062, 7063, 7064, 7065]",
        "ports has 65 entries: it takes an array of 1 to 64 different port numbers from 1 to 65535",
    ),
    (
        "ports = [0]",
        "ports has a value out of range: it takes an array of 1 to 64 different port numbers from 1 to 65535",
    ),
    (
        "ports = [7001, 65536]",
        "ports has a value out of range: it takes an array of 1 to 64 different port numbers from 1 to 65535",
    ),
    (
        "ports = [-7001]",
        "ports has a value out of range: it takes an array of 1 to 64 different port numbers from 1 to 65535",
    ),
    (
        "ports = [7001, 7001]",
        "ports has 7001 twice: it takes an array of 1 to 64 different port numbers from 1 to 65535",
    ),
    (
        "ports = [7001, 7002, 7003, 7003, 7002]",
        "ports has 7002 twice: it takes an array of 1 to 64 different port numbers from 1 to 65535",
    ),
    // The other keys.
    (
        "ports = [7001]\nheaps = 1",
        "heaps has a value out of range: it takes a whole number from 2 to 16",
    ),
    (
        "ports = [7001]\nheaps = 17",
        "heaps has a value out of range: it takes a whole number from 2 to 16",
    ),
    (
        "ports = [7001]\nheaps = -4",
        "heaps has a value out of range: it takes a whole number from 2 to 16",
    ),
    (
        "ports = [7001]\nheaps = 4.0",
        "heaps has a value of another kind: it takes a whole number from 2 to 16",
    ),
    (
        "ports = [7001]\nheaps = \"4\"",
        "heaps has a value of another kind: it takes a whole number from 2 to 16",
    ),
    (
        "ports = [7001]\nheaps = true",
        "heaps has a value of another kind: it takes a whole number from 2 to 16",
    ),
    (
        "ports = [7001]\nheaps = [4]",
        "heaps has a value of another kind: it takes a whole number from 2 to 16",
    ),
    (
        "ports = [7001]\nheaps = 1979-05-27",
        "heaps has a value of another kind: it takes a whole number from 2 to 16",
    ),
    (
        "ports = [7001]\nheaps = { four = 4 }",
        "heaps has a value of another kind: it takes a whole number from 2 to 16",
    ),
    (
        "ports = [7001]\nworkers = 0",
        "workers has a value out of range: it takes a whole number from 1 to 64",
    ),
    (
        "ports = [7001]\nworkers = 65",
        "workers has a value out of range: it takes a whole number from 1 to 64",
    ),
    (
        "ports = [7001]\nworkers = 4.5",
        "workers has a value of another kind: it takes a whole number from 1 to 64",
    ),
    (
        "ports = [7001]\nconnections = -1",
        "connections has a value out of range: it takes a whole number from 0 to 1000000",
    ),
    (
        "ports = [7001]\nconnections = 1000001",
        "connections has a value out of range: it takes a whole number from 0 to 1000000",
    ),
    (
        "ports = [7001]\nconnections = \"0\"",
        "connections has a value of another kind: it takes a whole number from 0 to 1000000",
    ),
    (
        "ports = [7001]\nclients = 0",
        "clients has a value out of range: it takes a whole number from 1 to 1000000",
    ),
    (
        "ports = [7001]\nclients = 1000001",
        "clients has a value out of range: it takes a whole number from 1 to 1000000",
    ),
    (
        "ports = [7001]\nclients = \"1\"",
        "clients has a value of another kind: it takes a whole number from 1 to 1000000",
    ),
    (
        "ports = [7001]\ntimeout = -1",
        "timeout has a value out of range: it takes a whole number from 0 to 1000000",
    ),
    (
        "ports = [7001]\ntimeout = 1000001",
        "timeout has a value out of range: it takes a whole number from 0 to 1000000",
    ),
    (
        "ports = [7001]\ntimeout = 0.5",
        "timeout has a value of another kind: it takes a whole number from 0 to 1000000",
    ),
    (
        "ports = [7001]\nwrite_timeout = -1",
        "write_timeout has a value out of range: it takes a whole number from 0 to 1000000",
    ),
    (
        "ports = [7001]\nwrite_timeout = 1000001",
        "write_timeout has a value out of range: it takes a whole number from 0 to 1000000",
    ),
    (
        "ports = [7001]\nwrite_timeout = true",
        "write_timeout has a value of another kind: it takes a whole number from 0 to 1000000",
    ),
    (
        "ports = [7001]\noutput = 1048575",
        "output has a value out of range: it takes a whole number from 1048576 to 1099511627776",
    ),
    (
        "ports = [7001]\noutput = 1099511627777",
        "output has a value out of range: it takes a whole number from 1048576 to 1099511627776",
    ),
    (
        "ports = [7001]\noutput = \"1mb\"",
        "output has a value of another kind: it takes a whole number from 1048576 to 1099511627776",
    ),
    (
        "ports = [7001]\nseed = -1",
        "seed has a value out of range: it takes a whole number from 0 to 9223372036854775807",
    ),
    (
        "ports = [7001]\nseed = 1e3",
        "seed has a value of another kind: it takes a whole number from 0 to 9223372036854775807",
    ),
    (
        "ports = [7001]\nrule = \"high\"",
        "rule has a value out of range: it takes \"HIGH\" or \"LOW\"",
    ),
    (
        "ports = [7001]\nrule = \"MIDDLE\"",
        "rule has a value out of range: it takes \"HIGH\" or \"LOW\"",
    ),
    (
        "ports = [7001]\nrule = \"\"",
        "rule has a value out of range: it takes \"HIGH\" or \"LOW\"",
    ),
    (
        "ports = [7001]\nrule = 1",
        "rule has a value of another kind: it takes \"HIGH\" or \"LOW\"",
    ),
    // Where a text breaks more than one rule, the first of them.
    (
        "heaps = 1\nport = 1",
        "\"port\" is not a key of settings, which are ports, heaps, workers, connections, clients, timeout, write_timeout, output, log_level, seed and rule",
    ),
    (
        "heaps = 1",
        "ports is missing: it takes an array of 1 to 64 different port numbers from 1 to 65535",
    ),
    (
        "ports = [\"7001\", 0]",
        "ports has a value of another kind: it takes an array of 1 to 64 different port numbers from 1 to 65535",
    ),
    (
        "ports = [0, \"7001\"]",
        "ports has a value out of range: it takes an array of 1 to 64 different port numbers from 1 to 65535",
    ),
    (
        "ports = [7001, 7001, 0]",
        "ports has a value out of range: it takes an array of 1 to 64 different port numbers from 1 to 65535",
    ),
    (
        "ports = [7001]\nworkers = 0\nheaps = 1",
        "heaps has a value out of range: it takes a whole number from 2 to 16",
    ),
    (
        "ports = [7001]\nconnections = -1\nworkers = \"1\"",
        "workers has a value of another kind: it takes a whole number from 1 to 64",
    ),
    (
        "ports = [7001]\nseed = -1\nconnections = -1",
        "connections has a value out of range: it takes a whole number from 0 to 1000000",
    ),
    (
        "ports = [7001]\nclients = 0\nconnections = -1",
        "connections has a value out of range: it takes a whole number from 0 to 1000000",
    ),
    (
        "ports = [7001]\ntimeout = -1\nclients = 0",
        "clients has a value out of range: it takes a whole number from 1 to 1000000",
    ),
    (
        "ports = [7001]\nwrite_timeout = -1\ntimeout = -1",
        "timeout has a value out of range: it takes a whole number from 0 to 1000000",
    ),
    (
        "ports = [7001]\noutput = 0\nwrite_timeout = -1",
        "write_timeout has a value out of range: it takes a whole number from 0 to 1000000",
    ),
    (
        "ports = [7001]\nseed = -1\noutput = 0",
        "output has a value out of range: it takes a whole number from 1048576 to 1099511627776",
    ),
    (
        "ports = [7001]\nrule = 1\nseed = -1",
        "seed has a value out of range: it takes a whole number from 0 to 9223372036854775807",
    ),
];

/// Why the text is refused, in words.
pub fn refusal(alloc: Global, text: &str) -> Result<String, Fail> {
    match settings(alloc, text) {
        Ok(_) => Err("not refused".into()),
        Err(SettingsFault::NoMemory) => Err("no memory".into()),
        Err(SettingsFault::Refused(why)) => Ok(format!(in alloc; "{why}")?),
    }
}

#[test]
fn each_text_is_refused_in_words(rt: HostRuntime) -> Result<(), Fail> {
    for (text, words) in REFUSALS.iter() {
        let told = refusal(rt.alloc(), text)?;
        assert_eq!(rt; told.as_str(), *words, "of {text}");
    }
    Ok(())
}
