//! A table of files, and what each is.
use crate::line::line_of;
use std::alloc::Global;
use std::test::Fail;
use vx_data::NoMemory;
use vx_deployfile::{FileRefused, FileWhy, Place};

/// What a text of the table is.
#[derive(Clone, Copy)]
enum As {
    /// A file.
    File,
    /// The field `pools` of a file without deployments.
    Pools,
    /// The second deployment of a file with the pool `p`.
    Second,
}

/// Texts, and the lines of their files.
static FILES: [(As, &str, &str); 78] = [
    (As::File, r#"{"version":1,"deployments":[]}"#, "2 2 0"),
    (
        As::File,
        r#" {"loops":1,"workers":1,"until":0,"deployments":[],"version":1} "#,
        "1 1 0",
    ),
    (
        As::File,
        r#"{"loops":16,"workers":20,"until":1000000000000,"deployments":[],"version":2}"#,
        "16 20 1000000000000",
    ),
    // Unknown fields are ignored, as pools are in version 1. Of a key that comes again the last value counts.
    (
        As::File,
        r#"{"version":1,"loops":"3","loops":3,"x":[1],"pools":7,"deployments":[{"kind":"echo","address":"a","pool":7}]}"#,
        "3 2 0 | echo a a 1",
    ),
    (
        As::File,
        r#"{"version":2,"version":1,"deployments":[{"kind":"caller","address":"x","kind":"echo","address":"a\u0062"}]}"#,
        "2 2 0 | echo ab ab 1",
    ),
    (
        As::File,
        r#"{"version":2,"pools":[{"name":"p","size":1},{"name":"q","size":20}],"deployments":[{"kind":"echo","address":"a","pool":"q","instances":64}]}"#,
        "2 2 0 p:1 q:20 | echo a a 64 in q",
    ),
    (
        As::File,
        r#"{"version":2,"pools":[{"size":3,"name":"p"}],"deployments":[{"kind":"caller","address":"a","to":"b","instances":4,"worker":true,"pool":"p","config":[-7,9]}]}"#,
        "2 2 0 p:3 | caller a b 4 worker in p -7 9",
    ),
    (
        As::File,
        r#"{"version":1,"deployments":[{"kind":"echo","address":"a","worker":false,"to":"a","config":[]},{"kind":"echo","address":"b","worker":true}]}"#,
        "2 2 0 | echo a a 1 | echo b b 1 worker",
    ),
    (
        As::File,
        r#"{"version":1,"loops":2,"workers":2,"deployments":[{"kind":"echo","address":"echo","instances":2},{"kind":"caller","address":"echo","config":[7]}]}"#,
        "2 2 0 | echo echo echo 2 | caller echo echo 1 7",
    ),
    // Each kind, with numbers at its limits and without.
    (
        As::File,
        r#"{"version":1,"deployments":[{"kind":"parent","address":"a","config":[64]},{"kind":"parent","address":"a"},{"kind":"ticker","address":"a","config":[1000000000000]}]}"#,
        "2 2 0 | parent a a 1 64 | parent a a 1 | ticker a a 1 1000000000000",
    ),
    (
        As::File,
        r#"{"version":1,"deployments":[{"kind":"late","address":"a","config":[1]},{"kind":"caller","address":"a","config":[0,1]},{"kind":"caller","address":"a","config":[0]}]}"#,
        "2 2 0 | late a a 1 1 | caller a a 1 0 1 | caller a a 1 0",
    ),
    (
        As::File,
        r#"{"version":1,"deployments":[{"kind":"failer","address":"a","config":[-2147483648]},{"kind":"failer","address":"a","config":[2147483647]},{"kind":"blocker","address":"a","config":[-1]}]}"#,
        "2 2 0 | failer a a 1 -2147483648 | failer a a 1 2147483647 | blocker a a 1 -1",
    ),
    (
        As::File,
        r#"{"version":1,"deployments":[{"kind":"counter","address":"a"},{"kind":"relay","address":"a"},{"kind":"silent","address":"a","config":[0]}]}"#,
        "2 2 0 | counter a a 1 | relay a a 1 | silent a a 1 0",
    ),
    // No JSON objects of the profile.
    (As::File, "", "File NotJson"),
    (As::File, "[]", "File NotJson"),
    (As::File, r#"{"version":1"#, "File NotJson"),
    (
        As::File,
        r#"{"version":1,"x":1.5,"deployments":[]}"#,
        "File NotJson",
    ),
    (
        As::File,
        r#"{"version":1,"deployments":[]}{}"#,
        "File NotJson",
    ),
    // The version.
    (As::File, "{}", "File Version"),
    (As::File, r#"{"version":"1"}"#, "File Version"),
    (As::File, r#"{"version":0}"#, "File Version"),
    (As::File, r#"{"version":3}"#, "File Version"),
    (As::File, r#"{"version":1,"version":3}"#, "File Version"),
    // The first place counts.
    (
        As::File,
        r#"{"version":1,"until":-1,"loops":null,"workers":0}"#,
        "Loops Shape",
    ),
    (As::File, r#"{"version":1,"loops":0}"#, "Loops Range"),
    (As::File, r#"{"version":1,"loops":17}"#, "Loops Range"),
    (As::File, r#"{"version":1,"workers":0}"#, "Workers Range"),
    (As::File, r#"{"version":1,"workers":21}"#, "Workers Range"),
    (
        As::File,
        r#"{"version":2,"until":-1,"pools":7,"deployments":7}"#,
        "Pool(0) Shape",
    ),
    (
        As::File,
        r#"{"version":1,"until":-1,"pools":7,"deployments":7}"#,
        "Until Range",
    ),
    (
        As::File,
        r#"{"version":1,"until":1000000000001}"#,
        "Until Range",
    ),
    (As::File, r#"{"version":1}"#, "Deployment(0) Missing"),
    (
        As::File,
        r#"{"version":1,"deployments":{}}"#,
        "Deployment(0) Shape",
    ),
    (
        As::File,
        r#"{"version":1,"deployments":[],"bridge":{}}"#,
        "Bridge Unbuilt",
    ),
    (
        As::File,
        r#"{"version":1,"deployments":[1],"bridge":{}}"#,
        "Deployment(0) Shape",
    ),
    // Pools.
    (As::Pools, "[]", "2 2 0"),
    (As::Pools, "{}", "Pool(0) Shape"),
    (As::Pools, "[7]", "Pool(0) Shape"),
    (As::Pools, "[{}]", "Pool(0) Missing"),
    (As::Pools, r#"[{"size":0}]"#, "Pool(0) Missing"),
    (As::Pools, r#"[{"name":7}]"#, "Pool(0) Shape"),
    (As::Pools, r#"[{"name":"","size":1}]"#, "Pool(0) Range"),
    (As::Pools, r#"[{"name":"p"}]"#, "Pool(0) Missing"),
    (As::Pools, r#"[{"name":"p","size":"1"}]"#, "Pool(0) Shape"),
    (As::Pools, r#"[{"name":"p","size":0}]"#, "Pool(0) Range"),
    (
        As::Pools,
        r#"[{"name":"p","size":1},{"name":"q","size":21}]"#,
        "Pool(1) Range",
    ),
    (
        As::Pools,
        r#"[{"name":"p","size":1},{"name":"p"}]"#,
        "Pool(1) Range",
    ),
    (
        As::Pools,
        r#"[{"name":"a","size":1},{"name":"b","size":1},{"name":"c","size":1},{"name":"d","size":1},{"name":"e","size":1},{"name":"f","size":1},{"name":"g","size":1},{"name":"h","size":1}]"#,
        "2 2 0 a:1 b:1 c:1 d:1 e:1 f:1 g:1 h:1",
    ),
    (
        As::Pools,
        r#"[{"name":"a","size":1},{"name":"b","size":1},{"name":"c","size":1},{"name":"d","size":1},{"name":"e","size":1},{"name":"f","size":1},{"name":"g","size":1},{"name":"h","size":1},7]"#,
        "Pool(8) Range",
    ),
    // Deployments.
    (As::Second, "null", "Deployment(1) Shape"),
    (As::Second, "{}", "Deployment(1) Missing"),
    (As::Second, r#"{"kind":7}"#, "Deployment(1) Shape"),
    (As::Second, r#"{"kind":"Echo"}"#, "Deployment(1) Range"),
    (As::Second, r#"{"kind":"echo"}"#, "Deployment(1) Missing"),
    (
        As::Second,
        r#"{"kind":"echo","address":["a"]}"#,
        "Deployment(1) Shape",
    ),
    (
        As::Second,
        r#"{"kind":"echo","address":""}"#,
        "Deployment(1) Range",
    ),
    (
        As::Second,
        r#"{"kind":"echo","address":"a","to":null}"#,
        "Deployment(1) Shape",
    ),
    (
        As::Second,
        r#"{"kind":"echo","address":"a","to":""}"#,
        "Deployment(1) Range",
    ),
    (
        As::Second,
        r#"{"kind":"echo","address":"a","instances":true}"#,
        "Deployment(1) Shape",
    ),
    (
        As::Second,
        r#"{"kind":"echo","address":"a","instances":0}"#,
        "Deployment(1) Range",
    ),
    (
        As::Second,
        r#"{"kind":"echo","address":"a","instances":65}"#,
        "Deployment(1) Range",
    ),
    (
        As::Second,
        r#"{"kind":"echo","address":"a","worker":1}"#,
        "Deployment(1) Shape",
    ),
    (
        As::Second,
        r#"{"kind":"echo","address":"a","pool":1}"#,
        "Deployment(1) Shape",
    ),
    (
        As::Second,
        r#"{"kind":"echo","address":"a","pool":"q"}"#,
        "Deployment(1) Range",
    ),
    (
        As::Second,
        r#"{"kind":"echo","address":"a","config":1}"#,
        "Deployment(1) Shape",
    ),
    (
        As::Second,
        r#"{"kind":"echo","address":"a","config":[1,"2"]}"#,
        "Deployment(1) Shape",
    ),
    (
        As::Second,
        r#"{"kind":"parent","address":"a","config":[65,"2"]}"#,
        "Deployment(1) Shape",
    ),
    (
        As::Second,
        r#"{"kind":"parent","address":"a","config":[65]}"#,
        "Deployment(1) Range",
    ),
    (
        As::Second,
        r#"{"kind":"parent","address":"a","config":[0]}"#,
        "Deployment(1) Range",
    ),
    (
        As::Second,
        r#"{"kind":"ticker","address":"a","config":[0]}"#,
        "Deployment(1) Range",
    ),
    (
        As::Second,
        r#"{"kind":"ticker","address":"a","config":[1000000000001]}"#,
        "Deployment(1) Range",
    ),
    (
        As::Second,
        r#"{"kind":"late","address":"a","config":[0]}"#,
        "Deployment(1) Range",
    ),
    (
        As::Second,
        r#"{"kind":"late","address":"a","config":[1000000000001]}"#,
        "Deployment(1) Range",
    ),
    (
        As::Second,
        r#"{"kind":"caller","address":"a","config":[0,0]}"#,
        "Deployment(1) Range",
    ),
    (
        As::Second,
        r#"{"kind":"caller","address":"a","config":[0,1000000000001]}"#,
        "Deployment(1) Range",
    ),
    (
        As::Second,
        r#"{"kind":"failer","address":"a","config":[2147483648]}"#,
        "Deployment(1) Range",
    ),
    (
        As::Second,
        r#"{"kind":"failer","address":"a","config":[-2147483649]}"#,
        "Deployment(1) Range",
    ),
    (
        As::Second,
        r#"{"kind":"relay","address":"a","to":"b","pool":"p"}"#,
        "2 2 0 p:1 | echo a a 1 in p | relay a b 1 in p",
    ),
];

/// What stands before the text.
fn front(what: As) -> &'static str {
    match what {
        As::File => "",
        As::Pools => r#"{"version":2,"deployments":[],"pools":"#,
        As::Second => {
            r#"{"version":2,"pools":[{"name":"p","size":1}],"deployments":[{"kind":"echo","address":"a","pool":"p"},"#
        }
    }
}

/// What stands behind it.
fn back(what: As) -> &'static str {
    match what {
        As::File => "",
        As::Pools => "}",
        As::Second => "]}",
    }
}

/// Whether this is the line of the file in which the text stands.
fn is_line(alloc: Global, what: As, text: &str, line: &str) -> Result<bool, NoMemory> {
    let mut file = Vec::from_slice(alloc, front(what).as_bytes())?;
    file.extend_from_slice(text.as_bytes())?;
    file.extend_from_slice(back(what).as_bytes())?;
    Ok(line_of(alloc, &file)?.as_slice() == line.as_bytes())
}

#[test]
fn files(rt: HostRuntime) -> Result<(), Fail> {
    for (what, text, line) in &FILES {
        let is_line = is_line(rt.alloc(), *what, text, line)?;
        assert!(rt; is_line, "not {line}: {text}");
    }
    Ok(())
}

#[test]
fn messages(rt: HostRuntime) -> Result<(), Fail> {
    let (place, why) = (Place::Loops, FileWhy::Range);
    let texts = format!(in rt.alloc();
        "{}, {}",
        FileRefused::BadFile { place, why },
        FileRefused::NoMemory
    )?;
    assert_eq!(rt; texts.as_str(), "bad file, no memory");
    Ok(())
}
