use net::{Fault, Refusal};
use records::RECORD_SIZE;
use report::{REPORT_SIZE, report};
use std::alloc::{AllocError, Global};
use std::process::Abort;
use std::test::Fail;

// A record of each kind.
fn place(number: u8) -> [u8; RECORD_SIZE] {
    [1, number, 0, 0, 0, 0, 0, 0]
}

// One token from a place to another, or to none.
fn step(place: u8, target: Option<u8>) -> [u8; RECORD_SIZE] {
    match target {
        Some(target) => [2, place, 0, 1, target, 255, 255, 255],
        None => [2, place, 0, 0, 255, 255, 255, 255],
    }
}

fn tokens(side: u8, place: u8, count: u8) -> [u8; RECORD_SIZE] {
    [3, side, place, 0, 0, count, 0, 0]
}

// Records behind those of a file.
fn add(file: &mut Vec<u8>, records: &[[u8; RECORD_SIZE]]) -> Result<(), AllocError> {
    for record in records {
        file.extend_from_slice(record)?;
    }
    Ok(())
}

// Four places, each with a transition of label 0: 0 to 0, 1 to 2, 2 to 1, and 3 to nothing.
fn four_places(heap: Global) -> Result<Vec<u8>, AllocError> {
    let mut file = Vec::new(heap);
    add(&mut file, &[place(0), place(1), place(2), place(3)])?;
    let steps = [
        step(0, Some(0)),
        step(1, Some(2)),
        step(2, Some(1)),
        step(3, None),
    ];
    add(&mut file, &steps)?;
    Ok(file)
}

// The report of the bytes is the text, and the bytes behind it are as they were.
fn reports(rt: &impl Abort, heap: Global, bytes: &[u8], text: &[u8]) -> Result<(), Fail> {
    let mut out = vec![in heap; 7u8; REPORT_SIZE]?;
    assert_eq!(rt; report(bytes, out.as_mut_slice()), Ok(text.len()));
    assert!(rt; out.as_slice().starts_with(text));
    assert_eq!(rt; out.as_slice().get(text.len()), Some(&7));
    Ok(())
}

// Places 0, 1 and 2 are of one class, 3 is alone.
#[test]
fn crews_alike(rt: HostRuntime) -> Result<(), Fail> {
    let mut file = four_places(rt.alloc())?;
    let crews = [
        tokens(0, 0, 2),
        tokens(0, 3, 1),
        tokens(1, 1, 1),
        tokens(1, 2, 1),
        tokens(1, 3, 1),
    ];
    add(&mut file, &crews)?;
    reports(
        &rt,
        rt.alloc(),
        file.as_slice(),
        b"ALIKE\n0 1 1\n0 2 1\n3 3 1\n",
    )
}

// Without the right token on place 2, the class of place 0 holds two left tokens and one right.
#[test]
fn crews_apart(rt: HostRuntime) -> Result<(), Fail> {
    let mut file = four_places(rt.alloc())?;
    let crews = [
        tokens(0, 0, 2),
        tokens(0, 3, 1),
        tokens(1, 1, 1),
        tokens(1, 3, 1),
    ];
    add(&mut file, &crews)?;
    reports(&rt, rt.alloc(), file.as_slice(), b"APART 0 2 1\n")
}

// Each token is paired with the lowest of its class that is left.
#[test]
fn crews_equal(rt: HostRuntime) -> Result<(), Fail> {
    let mut file = four_places(rt.alloc())?;
    for side in 0..2 {
        add(&mut file, &[tokens(side, 0, 1), tokens(side, 1, 1)])?;
    }
    reports(&rt, rt.alloc(), file.as_slice(), b"ALIKE\n0 0 1\n1 1 1\n")
}

#[test]
fn no_tokens(rt: HostRuntime) -> Result<(), Fail> {
    let file = four_places(rt.alloc())?;
    reports(&rt, rt.alloc(), file.as_slice(), b"ALIKE\n")
}

#[test]
fn no_records(rt: HostRuntime) -> Result<(), Fail> {
    reports(&rt, rt.alloc(), b"", b"ALIKE\n")
}

// Eight records and a half.
#[test]
fn cut_file(rt: HostRuntime) -> Result<(), Fail> {
    let mut file = four_places(rt.alloc())?;
    file.extend_from_slice(&[1, 4, 0, 0])?;
    reports(&rt, rt.alloc(), file.as_slice(), b"REFUSED 1 8\n")
}

// A record that names a place which is not declared: the fourth.
#[test]
fn undeclared_place(rt: HostRuntime) -> Result<(), Fail> {
    let mut file = Vec::new(rt.alloc());
    let records = [place(0), place(1), place(2), tokens(0, 3, 1)];
    add(&mut file, &records)?;
    reports(&rt, rt.alloc(), file.as_slice(), b"REFUSED 3 3\n")
}

// One byte less than a report may take is refused, and the bytes stay as they were.
#[test]
fn too_few_bytes(rt: HostRuntime) -> Result<(), Fail> {
    let mut out = vec![in rt.alloc(); 7u8; REPORT_SIZE - 1]?;
    assert_eq!(rt;
        report(b"", out.as_mut_slice()),
        Err(Fault::plain(Refusal::ShortList))
    );
    assert!(rt; out.iter().all(|byte| *byte == 7));
    assert_eq!(rt; out.len(), 4095);
    Ok(())
}
