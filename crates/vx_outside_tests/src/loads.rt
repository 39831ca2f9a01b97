use std::alloc::{AllocError, Global};
use std::test::Fail;
use std::{env, fs, process};
use vx_data::Text;
use vx_outside::{Files, HostFiles, LoadFault, MemFiles};

// Loads a file of three bytes whole, and of a limit of one byte the first two.
fn loads_abc<F: Files>(files: &mut F, name: &Text, into: &mut Vec<u8>) -> bool {
    files.load(name, 3, into) == Ok(())
        && files.load(name, 1, into) == Ok(())
        && into.as_slice() == b"-abcab".as_slice()
}

// One file, whose third load fails.
fn one_file(alloc: Global, name: Text) -> Result<MemFiles, AllocError> {
    let files = vec![in alloc; (name, b"abc".to_vec(alloc)?)]?;
    Ok(MemFiles::new(files, vec![in alloc; 2]?))
}

#[test]
fn memory_loads_what_is_there(rt: HostRuntime) -> Result<(), Fail> {
    let alloc = rt.alloc();
    let mut files = one_file(alloc, Text::constant("plan"))?;
    let mut into = vec![in alloc; b'-']?;
    let name = Text::constant("plan");
    let loaded = loads_abc(&mut files, &name, &mut into);
    let told = files.load(&name, 3, &mut into);
    let missing = files.load(&Text::constant("plans"), 3, &mut into);
    assert!(rt;
        loaded
            && told == Err(LoadFault::Failed)
            && missing == Err(LoadFault::Failed)
            && into.len() == 6
    );
    Ok(())
}

#[test]
fn the_system_loads_what_is_there(rt: HostRuntime) -> Result<(), Fail> {
    let alloc = rt.alloc();
    let folder = env::temp_dir(&rt)?;
    let own = process::id(rt.process());
    let path = format!(in alloc; "{}/vx_outside_{own}", folder.display())?;
    fs::write(&rt, path.as_str(), "abc")?;
    let name = Text::new(alloc, path.as_bytes())?;
    let mut files = HostFiles::new(&rt, alloc);
    let mut into = vec![in alloc; b'-']?;
    let loaded = loads_abc(&mut files, &name, &mut into);
    fs::remove_file(&rt, path.as_str())?;
    let missing = files.load(&name, 3, &mut into);
    assert!(rt; loaded && missing == Err(LoadFault::Failed) && into.len() == 6);
    Ok(())
}
