//! Files at each limit of length, depth and number.
use crate::line::line_of;
use std::alloc::{AllocError, Global};
use std::test::Fail;
use vx_data::NoMemory;

/// A file, before its closing brace.
const FILE: &str = r#"{"version":1,"deployments":[]"#;

/// A field that is unknown, in the file and in a deployment.
const IN_FILE: &str = r#"{"version":1,"deployments":[],"x":"#;

const IN_DEPLOYMENT: &str = r#"{"version":1,"deployments":[{"kind":"echo","address":"a","x":"#;

const ADDRESS: &str = r#"{"version":1,"deployments":[{"kind":"echo","address":""#;

const TO: &str = r#"{"version":1,"deployments":[{"kind":"echo","address":"a","to":""#;

const POOL: &str = r#"{"version":2,"deployments":[],"pools":[{"size":1,"name":""#;

const DEPLOYMENTS: &str = r#"{"version":1,"deployments":["#;

const DEPLOYMENT: &str = r#"{"kind":"echo","address":"a"},"#;

const LAST: &str = r#"{"kind":"echo","address":"a"}]}"#;

/// A text: what it begins with, a part that comes so many times, one that comes as often behind it, and its end; and how
/// the line of its file begins.
static LIMITS: [(&str, &str, usize, &str, &str, &str); 16] = [
    (FILE, " ", 1_048_576 - 30, "", "}", "2 2 0"),
    (FILE, " ", 1_048_576 - 29, "", "}", "File TooLong"),
    ("", "x", 1_048_577, "", "", "File TooLong"),
    (IN_FILE, "[", 126, "]", "}", "2 2 0"),
    (IN_FILE, "[", 127, "]", "}", "File NotJson"),
    (IN_DEPLOYMENT, "[", 124, "]", "}]}", "2 2 0 | echo a a 1"),
    (IN_DEPLOYMENT, "[", 125, "]", "}]}", "File NotJson"),
    (ADDRESS, "a", 1024, "", "\"}]}", "2 2 0 | echo aaaa"),
    (ADDRESS, "a", 1025, "", "\"}]}", "Deployment(0) Range"),
    (TO, "b", 1024, "", "\"}]}", "2 2 0 | echo a bbbb"),
    (TO, "b", 1025, "", "\"}]}", "Deployment(0) Range"),
    (POOL, "p", 1024, "", "\"}]}", "2 2 0 pppp"),
    (POOL, "p", 1025, "", "\"}]}", "Pool(0) Range"),
    (
        DEPLOYMENTS,
        DEPLOYMENT,
        63,
        "",
        LAST,
        "2 2 0 | echo a a 1 |",
    ),
    (
        DEPLOYMENTS,
        DEPLOYMENT,
        64,
        "",
        LAST,
        "Deployment(64) Range",
    ),
    (
        DEPLOYMENTS,
        DEPLOYMENT,
        64,
        "",
        "7]}",
        "Deployment(64) Range",
    ),
];

fn append_times(part: &str, count: usize, text: &mut Vec<u8>) -> Result<(), AllocError> {
    for _ in 0..count {
        text.extend_from_slice(part.as_bytes())?;
    }
    Ok(())
}

/// Whether the line of the file begins like this.
fn begins(alloc: Global, file: &[u8], line: &str) -> Result<bool, NoMemory> {
    Ok(line_of(alloc, file)?.starts_with(line.as_bytes()))
}

#[test]
fn limits(rt: HostRuntime) -> Result<(), Fail> {
    for (before, opening, count, closing, after, line) in &LIMITS {
        let mut file = Vec::from_slice(rt.alloc(), before.as_bytes())?;
        append_times(opening, *count, &mut file)?;
        append_times(closing, *count, &mut file)?;
        file.extend_from_slice(after.as_bytes())?;
        let begins = begins(rt.alloc(), &file, line)?;
        assert!(rt; begins, "not {line}, {count} times");
    }
    Ok(())
}
