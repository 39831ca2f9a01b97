use std::alloc::Global;
use std::test::Fail;
use vx_data::{Body, BodyView, CodecId, EntryNo, List, NoMemory, Text};
use vx_message::CodecForm;
use vx_rules::{Codecs, transform};

// Whether a body is an object of this one key.
fn has_only(body: &Body, name: &Text) -> bool {
    match body.view() {
        BodyView::Object([(key, _)]) => name.is(key),
        _ => false,
    }
}

// The pairs of an object of the keys `a` and `b`.
fn pairs(alloc: Global) -> Result<Vec<(Text, Body)>, NoMemory> {
    Ok(vec![in alloc;
        (Text::constant("a"), Body::int(1)),
        (Text::constant("b"), Body::int(2)),
    ]?)
}

fn only_b(alloc: Global) -> Result<List<Text>, NoMemory> {
    Ok(List::new(vec![in alloc; Text::constant("b")]?))
}

// Whether to keep `b` leaves `b` alone.
fn keeps(alloc: Global, both: &Body) -> Result<bool, NoMemory> {
    let form = CodecForm::KeepKeys(only_b(alloc)?);
    let kept = transform(alloc, &form, both)?;
    Ok(has_only(&kept, &Text::constant("b")))
}

// Whether to drop `b` leaves `a` alone.
fn drops(alloc: Global, both: &Body) -> Result<bool, NoMemory> {
    let form = CodecForm::DropKeys(only_b(alloc)?);
    let kept = transform(alloc, &form, both)?;
    Ok(has_only(&kept, &Text::constant("a")))
}

// Whether a number goes into an object of the key `k`.
fn wraps(alloc: Global) -> Result<bool, NoMemory> {
    let wrapped = transform(alloc, &CodecForm::Wrap(Text::constant("k")), &Body::int(7))?;
    Ok(has_only(&wrapped, &Text::constant("k")))
}

// Whether a codec is found by its name, until it is removed.
fn is_found(codecs: &mut Codecs, name: &Text) -> bool {
    let found = codecs.find(name).map(|found| found.0) == Some(CodecId(EntryNo(3)));
    found && codecs.len() == 1 && codecs.remove(name) && !codecs.remove(name)
}

#[test]
fn codecs_make_bodies(rt: HostRuntime) -> Result<(), Fail> {
    let alloc = rt.alloc();
    let both = Body::object(alloc, pairs(alloc)?)?;
    let copied = has_only(
        &transform(alloc, &CodecForm::Copy, &both)?,
        &Text::constant("a"),
    );
    let done = keeps(alloc, &both)? && drops(alloc, &both)? && wraps(alloc)?;
    assert!(rt; done && !copied);
    Ok(())
}

#[test]
fn codecs_are_found_by_name(rt: HostRuntime) -> Result<(), Fail> {
    let mut codecs = Codecs::new(rt.alloc());
    codecs.reserve()?;
    codecs.add(CodecId(EntryNo(3)), Text::constant("w"), CodecForm::Copy);
    assert!(rt; is_found(&mut codecs, &Text::constant("w")));
    Ok(())
}
