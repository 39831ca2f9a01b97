//! The values of bodies, each call with ample memory, at values from outside.
use std::alloc::{AllocError, Global};
use std::test::Fail;
use vx_data::{
    Body, BodyView, HeaderFault, Headers, List, Moment, NoMemory, Numbers, ObjectFault, Text,
    TextFault,
};
use vx_json::write_body;

#[test]
fn texts(rt: HostRuntime) -> Result<(), Fail> {
    let alloc = rt.alloc();
    let is_refused = matches!(Text::new(alloc, &[0xff]), Err(TextFault::BadText));
    let text = Text::constant("a");
    let is_itself = text.bytes() == b"a".as_slice() && text.as_str() == "a" && text.len() == 1;
    let longer = Text::new(alloc, b"aa")?;
    let copy = text.copy(alloc)?;
    let is_copied = copy.is(&text) && copy == text && copy < longer;
    assert!(rt; is_refused && is_itself && is_copied);
    Ok(())
}

fn are_listed(alloc: Global) -> Result<bool, NoMemory> {
    let numbers = Numbers::new(alloc, &[1])?;
    let copy = numbers.copy(alloc)?;
    let list = List::new(Vec::from_slice(alloc, b"ab")?);
    Ok(
        copy.list() == numbers.list()
            && numbers.list() == [1].as_slice()
            && list.items() == b"ab".as_slice(),
    )
}

#[test]
fn lists(rt: HostRuntime) -> Result<(), Fail> {
    let are_listed = are_listed(rt.alloc())?;
    let are_moments = Moment::at(u64::MAX).ms() == 1 << 62 && Moment::at(7).ms() == 7;
    assert!(rt; are_listed && are_moments);
    Ok(())
}

/// Adds so many headers of two bytes.
fn add_headers(alloc: Global, count: u32, headers: &mut Headers) -> Result<(), TextFault> {
    for _ in 0..count {
        let name = Text::new(alloc, b"x")?;
        if headers.add(name, Text::constant("y")).is_err() {
            return Err(TextFault::NoMemory);
        }
    }
    Ok(())
}

/// Whether one more header is refused, and given back.
fn is_full(headers: &mut Headers) -> bool {
    match headers.add(Text::constant("x"), Text::constant("z")) {
        Ok(()) => false,
        Err(refused) => refused.why == HeaderFault::TooMany && refused.value.as_str() == "z",
    }
}

#[test]
fn headers(rt: HostRuntime) -> Result<(), Fail> {
    let mut headers = Headers::empty(rt.alloc());
    add_headers(rt.alloc(), 1152, &mut headers)?;
    let is_full = is_full(&mut headers);
    let copy = headers.copy(rt.alloc())?;
    assert!(rt; is_full && copy.pairs().len() == 1152 && copy.bytes() == 2304);
    Ok(())
}

/// An array of the one body.
fn array_of(alloc: Global, body: Body) -> Result<Body, AllocError> {
    let mut items = Vec::new(alloc);
    items.push(body)?;
    match Body::array(items) {
        Ok(array) => Ok(array),
        Err(_) => Ok(Body::null()),
    }
}

/// So many arrays, one in another; null, where they are too many.
fn nested(alloc: Global, depth: u32) -> Result<Body, AllocError> {
    let mut body = Body::null();
    for _ in 0..depth {
        body = array_of(alloc, body)?;
    }
    Ok(body)
}

#[test]
fn arrays(rt: HostRuntime) -> Result<(), Fail> {
    let deepest = nested(rt.alloc(), 101)?;
    let copy = deepest.copy(rt.alloc())?;
    assert!(rt; copy.depth() == 101 && copy.size() == 206);
    let too_deep = array_of(rt.alloc(), deepest)?;
    assert!(rt; too_deep.depth() == 0);
    Ok(())
}

fn object(alloc: Global, last: Body) -> Result<Result<Body, ObjectFault>, AllocError> {
    let mut pairs = Vec::new(alloc);
    pairs.push((Text::constant("b"), Body::int(1)))?;
    pairs.push((
        Text::constant("a"),
        Body::bytes(Vec::from_slice(alloc, b"\x00\xff")?),
    ))?;
    pairs.push((Text::constant("b"), last))?;
    Ok(Body::object(alloc, pairs).map_err(|refused| refused.why))
}

/// Whether the body's text is appended, and the body's size is its length.
fn is_appended(alloc: Global, body: &Body, text: &[u8]) -> Result<bool, NoMemory> {
    let mut into = Vec::from_slice(alloc, b"body ")?;
    write_body(body, &mut into)?;
    Ok(into.as_slice() == text && body.size() == 18)
}

#[test]
fn objects(rt: HostRuntime) -> Result<(), Fail> {
    let deep = nested(rt.alloc(), 101)?;
    let is_refused = matches!(object(rt.alloc(), deep)?, Err(ObjectFault::TooDeep));
    assert!(rt; is_refused);
    if let Ok(object) = object(rt.alloc(), Body::int(3))? {
        let is_appended = is_appended(rt.alloc(), &object, b"body {\"a\":\"00ff\",\"b\":3}")?;
        assert!(rt; is_appended);
    }
    Ok(())
}

#[test]
fn sizes(rt: HostRuntime) -> Result<(), Fail> {
    let is_number = matches!(Body::int(7).view(), BodyView::Int(7));
    let is_small = Body::null().size() == 4
        && Body::bool(false).size() == 5
        && Body::int(i64::MIN).size() == 20;
    let text = Body::text(Text::constant("a\"\n\x01"));
    assert!(rt; is_number && is_small && text.size() == 13);
    Ok(())
}
