use crate::said::said_of;
use std::alloc::Global;
use std::test::Fail;
use vx_data::NoMemory;

/// Lines, and what they have done.
static LINES: [(&str, &str); 44] = [
    ("deploy echo a 3", "deploy echo a a [ ] 3"),
    (
        "deploy +to:b +config:-1 +worker +config:2 +pool:p +tell:4.1 relay a 03",
        "deploy worker in p tells 4.1 relay a b [ -1 2 ] 3",
    ),
    (
        "deploy +config:-9223372036854775808 +to: silent +x 1000",
        "deploy silent +x  [ -9223372036854775808 ] 1000",
    ),
    ("deploy echo a 1001", "Form"),
    ("deploy +config:9223372036854775808 echo a 1", "Form"),
    ("deploy +config: echo a 1", "Form"),
    ("deploy +worker: echo a 1", "Form"),
    ("deploy +worker +worker echo a 1", "Form"),
    ("deploy +tell: echo a 1", "Form"),
    ("deploy +limit:1 echo a 1", "Form"),
    ("deploy news a 1", "Form"),
    ("deploy echo a", "Form"),
    ("deploy ticker a 1", "Unbuilt"),
    ("deploy +worker blocker", "Unbuilt"),
    ("deploy late", "Unbuilt"),
    ("deploy lates a 1", "Form"),
    ("undeploy 1", "call"),
    ("undeploy +tell:0 1", "call"),
    ("undeploy +tell:0 +tell:0 1", "Form"),
    ("loops 4294967295", "call"),
    ("loops 4294967296", "Form"),
    ("pool p 1", "call"),
    ("started", "call"),
    ("started fail -2147483648", "call"),
    ("started fail 2147483648", "Form"),
    ("started nomemory", "call"),
    ("started well", "Form"),
    ("stopped ", "call"),
    ("close", "call"),
    ("close 1", "Form"),
    ("take loop 255", "take loop 255"),
    ("take loop 256", "Form"),
    ("work  pool ", "work pool"),
    ("work pool 1", "Form"),
    (
        "work named 18446744073709551615",
        "work named 18446744073709551615",
    ),
    ("take own 7.2", "take own 7.2"),
    ("work", "Form"),
    ("finish ", "done"),
    ("finish later", "later"),
    (
        "finish value -9223372036854775808",
        "value -9223372036854775808",
    ),
    ("finish fail 7", "fail 7"),
    ("finish nomemory", "no memory"),
    ("timer 0 1", "Unbuilt"),
    ("blocker", "Word"),
];

/// Whether the line has this done.
fn says(alloc: Global, line: &str, said: &str) -> Result<bool, NoMemory> {
    Ok(said_of(alloc, line.as_bytes())?.as_slice() == said.as_bytes())
}

#[test]
fn lines(rt: HostRuntime) -> Result<(), Fail> {
    for (line, said) in &LINES {
        let says = says(rt.alloc(), line, said)?;
        assert!(rt; says, "not {said}: {line}");
    }
    Ok(())
}
