//! Files that are written, and what is written of them.
use crate::line::line_of;
use std::alloc::Global;
use std::test::Fail;
use vx_data::NoMemory;
use vx_deployfile::{read_file, write_file};

/// Files, and what is written of each.
static WRITTEN: [(&str, &str); 5] = [
    (
        r#"{"version":1,"loops":2,"workers":2,"deployments":[{"kind":"echo","address":"echo","instances":2},{"kind":"caller","address":"echo","config":[7]}]}"#,
        r#"{"deployments":[{"address":"echo","instances":2,"kind":"echo"},{"address":"echo","config":[7],"kind":"caller"}],"version":2}"#,
    ),
    (
        r#"{ "version" : 2, "pools" : [ ], "until" : 0, "deployments" : [ ], "x" : [ { } ] }"#,
        r#"{"deployments":[],"version":2}"#,
    ),
    (
        r#"{"version":1,"pools":[{"name":"p","size":1}],"deployments":[{"kind":"echo","address":"a","pool":"p","to":"a","worker":false,"instances":1,"config":[]}]}"#,
        r#"{"deployments":[{"address":"a","kind":"echo"}],"version":2}"#,
    ),
    (
        r#"{"workers":20,"version":2,"until":1000000000000,"pools":[{"size":3,"name":"q\""},{"name":"p\u00e9\/","size":20}],"loops":1,"deployments":[{"worker":true,"to":"b","pool":"q\u0022","kind":"failer","instances":64,"config":[-2147483648,0],"address":"\n"}]}"#,
        r#"{"deployments":[{"address":"\n","config":[-2147483648,0],"instances":64,"kind":"failer","pool":"q\"","to":"b","worker":true}],"loops":1,"pools":[{"name":"q\"","size":3},{"name":"pé/","size":20}],"until":1000000000000,"version":2,"workers":20}"#,
    ),
    (
        r#"{"version":1,"version":2,"loops":16,"loops":2,"workers":1,"deployments":[{"kind":"echo","address":"x","address":"a"}]}"#,
        r#"{"deployments":[{"address":"a","kind":"echo"}],"version":2,"workers":1}"#,
    ),
];

/// Appends what is written of the file that the text is. Whether it is one.
fn append_written(alloc: Global, text: &str, into: &mut Vec<u8>) -> Result<bool, NoMemory> {
    match read_file(alloc, text.as_bytes()) {
        Ok(file) => {
            write_file(alloc, &file, into)?;
            Ok(true)
        }
        Err(_) => Ok(false),
    }
}

/// Whether both texts are the same file.
fn are_same(alloc: Global, text: &str, other: &str) -> Result<bool, NoMemory> {
    let line = line_of(alloc, text.as_bytes())?;
    Ok(line_of(alloc, other.as_bytes())?.as_slice() == line.as_slice())
}

#[test]
fn written(rt: HostRuntime) -> Result<(), Fail> {
    for (text, wanted) in &WRITTEN {
        let mut bytes = Vec::new(rt.alloc());
        let is_file = append_written(rt.alloc(), text, &mut bytes)?;
        let is_wanted = bytes.as_slice() == wanted.as_bytes();
        let are_same = are_same(rt.alloc(), text, wanted)?;
        assert!(rt; is_file && is_wanted && are_same, "not {wanted}");
    }
    Ok(())
}
