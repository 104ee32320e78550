// Whole files, with what they print worked out by hand from the rules.
use crate::play::day_text;
use calendar::{Group, Timetable};
use std::alloc::{AllocError, Global};
use std::process::Abort;
use std::test::Fail;

const NAMES: &str = "call,minute,party,kind,side,price,size,trigger,ask,asksize,number";

// What a file prints behind the names line.
fn printed(heap: Global, file: &[u8]) -> Result<String, Fail> {
    let text = day_text(heap, Timetable::new(Group::Yen), file)?;
    match text
        .as_str()
        .strip_prefix("letter,number,party,side,price,size,moment\n")
    {
        Some(rest) => Ok(String::from_str(heap, rest)?),
        None => Err(Fail::new("no names line")),
    }
}

// The names line, and then the bytes given.
fn behind_names(heap: Global, rest: &[u8]) -> Result<Vec<u8>, AllocError> {
    let mut file = Vec::new(heap);
    file.extend_from_slice(NAMES.as_bytes())?;
    file.extend_from_slice(rest)?;
    Ok(file)
}

fn check_file(rt: &impl Abort, heap: Global, file: &[u8], rows: &str) -> Result<(), Fail> {
    let text = printed(heap, file)?;
    assert!(rt; text.as_str() == rows, "{}", rows);
    Ok(())
}

fn check_rest(rt: &impl Abort, heap: Global, rest: &[u8], rows: &str) -> Result<(), Fail> {
    let file = behind_names(heap, rest)?;
    check_file(rt, heap, file.as_slice(), rows)
}

#[test]
fn first_and_last_lines(rt: HostRuntime) -> Result<(), Fail> {
    let heap = rt.alloc();
    check_file(&rt, heap, b"", "E,22,1,1,0,0,0\n")?;
    check_file(&rt, heap, b"\n", "E,22,1,1,0,0,0\n")?;
    check_file(&rt, heap, b"call\n", "E,22,1,1,0,0,0\n")?;
    check_rest(&rt, heap, b"", "")?;
    check_rest(&rt, heap, b"\n", "")?;
    check_rest(&rt, heap, b"\r\n", "E,22,1,1,0,0,0\n")?;
    check_rest(&rt, heap, b"\n\n", "E,23,2,2,0,0,0\n")?;
    check_rest(&rt, heap, b"\nturn,1915,,,,,,,,,", "T,2,0,0,0,0,1\n")?;
    check_rest(
        &rt,
        heap,
        b"\nturn,1915,,,,,,,,,\n\n",
        "T,2,0,0,0,0,1\nE,23,2,3,0,0,0\n",
    )
}

#[test]
fn faults_of_lines_and_fields(rt: HostRuntime) -> Result<(), Fail> {
    let heap = rt.alloc();
    check_rest(&rt, heap, b"\nturn,1915,,,,,,,,\n", "E,23,2,2,0,0,0\n")?;
    check_rest(&rt, heap, b"\nturn,1915,,,,,,,,,,\n", "E,23,2,2,0,0,0\n")?;
    check_rest(&rt, heap, b"\nTurn,x,,,,,,,,,\n", "E,24,3,2,1,0,0\n")?;
    check_rest(
        &rt,
        heap,
        b"\nquote,,3,,,14985,4,,14990,9,\n",
        "E,24,3,2,1,0,0\n",
    )?;
    check_rest(&rt, heap, b"\nturn,1915,,,,,,,,,\r\n", "E,25,3,2,19,0,0\n")?;
    check_rest(
        &rt,
        heap,
        b"\nturn,000001915,,,,,,,,,\n",
        "E,25,3,2,6,0,0\n",
    )?;
    check_rest(
        &rt,
        heap,
        b"\nturn,00001915,12345678,,,,,,,,\n",
        "T,2,0,0,0,0,1\n",
    )?;
    check_rest(
        &rt,
        heap,
        b"\nturn,,,,,,,,,,\nturn,1915,,,,-1,,,,,+\n",
        "T,0,0,0,0,0,1\nE,25,3,3,14,0,0\n",
    )
}

// A file of just so many bytes: the names line, and then one long line.
fn long_file(heap: Global, bytes: usize) -> Result<Vec<u8>, Fail> {
    let mut file = behind_names(heap, b"\n")?;
    for _ in file.len()..bytes {
        file.push(b',')?;
    }
    Ok(file)
}

#[test]
fn longest_file(rt: HostRuntime) -> Result<(), Fail> {
    let heap = rt.alloc();
    let longest = long_file(heap, 65_536)?;
    check_file(&rt, heap, longest.as_slice(), "E,23,2,2,0,0,0\n")?;
    let longer = long_file(heap, 65_537)?;
    check_file(&rt, heap, longer.as_slice(), "E,21,1,0,0,0,0\n")
}

#[test]
fn random_bytes(rt: HostRuntime) -> Result<(), Fail> {
    let heap = rt.alloc();
    let mut state: u32 = 1;
    for length in 0..200u32 {
        let mut file = Vec::new(heap);
        for _ in 0..length {
            state = state.wrapping_mul(1_664_525).wrapping_add(1_013_904_223);
            file.push((state >> 24) as u8)?;
        }
        check_file(&rt, heap, file.as_slice(), "E,22,1,1,0,0,0\n")?;
    }
    Ok(())
}
