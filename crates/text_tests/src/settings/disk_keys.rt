//! What a site of a text keeps on disk, and texts that are refused for that.

use super::site_refused::{HEARD, refusal};
use std::test::Fail;
use zq_settings::{SyncMode, site_settings};

const PATH: &str = "it takes the path of a folder, a text of 1 to 3072 bytes with no byte 0";

const WORD: &str = "it takes \"always\" or \"soon\"";

/// The text behind the keys that have to be there, the folder and what waits.
const GIVEN: [(&str, Option<&str>, SyncMode); 5] = [
    ("", None, SyncMode::Always),
    ("data = \"d\"", Some("d"), SyncMode::Always),
    (
        "sync = \"soon\"\ndata = \"/var/lib/zqueue\"",
        Some("/var/lib/zqueue"),
        SyncMode::Soon,
    ),
    (
        "data = 'ein Ordner/ü'\nsync = 'always'",
        Some("ein Ordner/ü"),
        SyncMode::Always,
    ),
    ("sync = \"soon\"", None, SyncMode::Soon),
];

/// The text behind the keys that have to be there, what is wrong, and what belongs there.
const REFUSALS: [(&str, &str, &str); 6] = [
    ("data = 1", "data has a value of another kind: ", PATH),
    ("data = \"\"", "data has a value out of range: ", PATH),
    (
        "data = \"a\\u0000b\"",
        "data has a value out of range: ",
        PATH,
    ),
    ("sync = true", "sync has a value of another kind: ", WORD),
    ("sync = \"Always\"", "sync has a value out of range: ", WORD),
    // The folder is judged first.
    (
        "sync = 1\ndata = \"\"",
        "data has a value out of range: ",
        PATH,
    ),
];

#[test]
fn a_site_keeps_what_its_text_says(rt: HostRuntime) -> Result<(), Fail> {
    for (rest, folder, sync) in GIVEN.iter() {
        let text = format!(in rt.alloc(); "{HEARD}{rest}")?;
        let given = site_settings(rt.alloc(), text.as_str())?;
        let path = match &given.disk.path {
            Some(path) => Some(path.as_str()),
            None => None,
        };
        assert!(rt; path == *folder, "of {text}");
        assert!(rt; given.disk.sync == *sync, "of {text}");
    }
    Ok(())
}

#[test]
fn each_folder_and_each_word_is_refused_in_words(rt: HostRuntime) -> Result<(), Fail> {
    for (rest, what, takes) in REFUSALS.iter() {
        let text = format!(in rt.alloc(); "{HEARD}{rest}")?;
        let told = refusal(rt.alloc(), text.as_str())?;
        let words = format!(in rt.alloc(); "{what}{takes}")?;
        assert_eq!(rt; told.as_str(), words.as_str(), "of {text}");
    }
    Ok(())
}
