//! The settings that arguments give.

use sig_host::{Settings, WordsError, words};
use sig_layout::Policy;
use std::alloc::{AllocError, Global};
use test_shared::texts_of;

/// Words that the command takes, and the settings that they give: the workers, the quota, the policy
/// and the calls.
const WORDS: [(&[&str], u32, u32, Policy, Option<u32>); 17] = [
    (&[], 1, 64, Policy::Auto, None),
    (&["--"], 1, 64, Policy::Auto, None),
    (&["--generate", "1"], 1, 64, Policy::Auto, Some(1)),
    (&["--generate", "800"], 1, 64, Policy::Auto, Some(800)),
    (
        &["--generate", "00000000000000000000005"],
        1,
        64,
        Policy::Auto,
        Some(5),
    ),
    (&["--generate=5"], 1, 64, Policy::Auto, Some(5)),
    (&["--workers", "1"], 1, 64, Policy::Auto, None),
    (&["--workers", "16"], 16, 64, Policy::Auto, None),
    (&["--quota", "1"], 1, 1, Policy::Auto, None),
    (&["--quota", "1000000"], 1, 1_000_000, Policy::Auto, None),
    (&["--buffers", "never"], 1, 64, Policy::Never, None),
    (&["--buffers", "always"], 1, 64, Policy::Always, None),
    (&["--buffers", "auto"], 1, 64, Policy::Auto, None),
    (&["--buffers", "churn:1"], 1, 64, Policy::Churn(1), None),
    (
        &["--buffers=churn:1000000"],
        1,
        64,
        Policy::Churn(1_000_000),
        None,
    ),
    (
        &["--workers", "4", "--buffers", "churn:3"],
        4,
        64,
        Policy::Churn(3),
        None,
    ),
    (
        &[
            "--generate",
            "7",
            "--buffers",
            "never",
            "--quota",
            "2",
            "--workers=3",
        ],
        3,
        2,
        Policy::Never,
        Some(7),
    ),
];

/// Whether the command answers so to these words.
fn answers(
    alloc: Global,
    list: &[&str],
    expected: Result<Settings, WordsError>,
) -> Result<bool, AllocError> {
    let given = texts_of(alloc, list)?;
    let answer = words(alloc, given.as_slice());
    drop(given);
    Ok(answer == expected)
}

#[test]
fn words_give_their_settings(rt: HostRuntime) {
    let alloc = rt.alloc();
    for (list, workers, quota, policy, generate) in WORDS {
        let expected = Settings {
            workers,
            quota,
            policy,
            generate,
        };
        assert!(rt; answers(alloc, list, Ok(expected)) == Ok(true), "{list:?}");
    }
}
