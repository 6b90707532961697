// Desks and whole files, on worked calls.
use crate::{
    Desk, DeskError, MemDesk, Output, ReadError, StdDesk, read_all, write_file, write_outputs,
};
use std::alloc::{AllocError, Global};
use std::fs;
use std::test::Fail;

// More than one piece of a read or a write.
const LONG: usize = 65547;

// A text of that many bytes, no two neighbours alike.
fn text_of(alloc: Global, size: usize) -> Result<Vec<u8>, AllocError> {
    let mut text = Vec::new(alloc);
    for index in 0..size {
        text.push((index % 251) as u8)?;
    }
    Ok(text)
}

#[test]
fn a_desk_in_memory_keeps_its_files_and_lines(rt: HostRuntime) -> Result<(), Fail> {
    let alloc = rt.alloc();
    let mut desk = MemDesk::new(alloc, vec![in alloc; 3, 6]?);
    desk.create("new")?;
    desk.write(b"12345")?;
    assert_eq!(rt; desk.write(b"abcde"), Err(DeskError::Fault), "call 3");
    desk.finish()?;
    desk.say(b"hello\n")?;
    assert_eq!(rt; desk.say(b"worlds\n"), Err(DeskError::Fault), "call 6");
    assert_eq!(rt; desk.faults(), 2);
    assert_eq!(rt; desk.said(), b"hello\nwor".as_slice());

    let mut piece = [0u8; 4];
    assert!(rt; desk.open("new")?);
    assert_eq!(rt; desk.read(&mut piece)?, 4);
    assert_eq!(rt; piece.as_slice(), b"1234".as_slice());
    desk.add_file("new", b"other")?;
    assert_eq!(rt; desk.read(&mut piece)?, 3);
    assert_eq!(rt; piece.as_slice(), b"5ab4".as_slice());
    assert_eq!(rt; desk.read(&mut piece)?, 0);
    assert_eq!(rt; desk.file("new"), Some(b"other".as_slice()));
    desk.create("new")?;
    assert_eq!(rt; desk.file("new"), Some(b"".as_slice()));
    assert!(rt; !desk.open("absent")?);
    assert_eq!(rt; desk.file("absent"), None);
    assert_eq!(rt; desk.faults(), 2);
    Ok(())
}

#[test]
fn whole_files_are_written(rt: HostRuntime) -> Result<(), Fail> {
    let alloc = rt.alloc();
    let text = text_of(alloc, LONG)?;
    let mut desk = MemDesk::new(alloc, vec![in alloc; 7]?);
    write_file(&mut desk, "long", &text)?;
    assert_eq!(rt; desk.file("long"), Some(text.as_slice()), "calls 1 to 4");
    let answer = write_file(&mut desk, "part", &text);
    assert_eq!(rt; answer, Err(DeskError::Fault), "calls 5 to 7");
    let part = desk.file("part").ok_or("no file")?;
    assert_eq!(rt; part.len(), 65541);
    assert!(rt; text.starts_with(part));
    Ok(())
}

fn output<'a>(alloc: Global, name: &'a str, text: &[u8]) -> Result<Output<'a>, AllocError> {
    Ok(Output {
        name,
        text: Vec::from_slice(alloc, text)?,
    })
}

#[test]
fn outputs_are_written_in_order(rt: HostRuntime) -> Result<(), Fail> {
    let alloc = rt.alloc();
    let outputs = [
        output(alloc, "first", b"12345678")?,
        output(alloc, "second", b"abcd")?,
        output(alloc, "third", b"")?,
    ];
    let mut desk = MemDesk::new(alloc, vec![in alloc; 13]?);
    write_outputs(&mut desk, &outputs)?;
    assert_eq!(rt;
        desk.file("first"),
        Some(b"12345678".as_slice()),
        "calls 1 to 3"
    );
    assert_eq!(rt;
        desk.file("second"),
        Some(b"abcd".as_slice()),
        "calls 4 to 6"
    );
    assert_eq!(rt; desk.file("third"), Some(b"".as_slice()), "calls 7 and 8");
    desk.add_file("third", b"as before")?;
    let answer = write_outputs(&mut desk, &outputs);
    assert_eq!(rt; answer, Err(DeskError::Fault), "calls 9 to 13");
    assert_eq!(rt; desk.file("first"), Some(b"12345678".as_slice()));
    assert_eq!(rt; desk.file("second"), Some(b"ab".as_slice()), "a half");
    assert_eq!(rt; desk.file("third"), Some(b"as before".as_slice()));
    Ok(())
}

#[test]
fn whole_files_are_read(rt: HostRuntime) -> Result<(), Fail> {
    let alloc = rt.alloc();
    let text = text_of(alloc, LONG)?;
    let mut desk = MemDesk::new(alloc, vec![in alloc; 9]?);
    desk.add_file("long", &text)?;
    let read = read_all(alloc, &mut desk, "long", LONG)?;
    assert_eq!(rt; read.as_slice(), text.as_slice(), "calls 1 to 4");
    let answer = read_all(alloc, &mut desk, "long", LONG - 1);
    assert_eq!(rt; answer.err(), Some(ReadError::TooLong), "calls 5 to 7");
    let answer = read_all(alloc, &mut desk, "none", LONG);
    assert_eq!(rt; answer.err(), Some(ReadError::NoFile), "call 8");
    let answer = read_all(alloc, &mut desk, "long", LONG);
    assert_eq!(rt; answer.err(), Some(ReadError::Fault), "call 9");
    Ok(())
}

#[test]
fn the_system_is_a_desk(rt: HostRuntime) -> Result<(), Fail> {
    let alloc = rt.alloc();
    let text = text_of(alloc, LONG)?;
    let mut desk = StdDesk::new(&rt);
    let name = "desk_io.tmp";
    write_file(&mut desk, name, b"an older file")?;
    write_file(&mut desk, name, &text)?;
    let read = read_all(alloc, &mut desk, name, LONG)?;
    assert_eq!(rt; read.as_slice(), text.as_slice());
    let answer = read_all(alloc, &mut desk, name, LONG - 1);
    assert_eq!(rt; answer.err(), Some(ReadError::TooLong));
    fs::remove_file(&rt, name)?;
    assert!(rt; !desk.open(name)?, "it isn't there any more");

    // a folder is opened as a file is, and isn't read
    let answer = read_all(alloc, &mut desk, ".", LONG);
    assert_eq!(rt; answer.err(), Some(ReadError::Fault));
    assert_eq!(rt; desk.create("."), Err(DeskError::Fault));
    desk.say(b"said to standard output\n")?;
    desk.say(b"snxcomb: said to standard error\n")?;
    assert_eq!(rt; desk.say(b"snxcomb: \xff\n"), Err(DeskError::Fault));
    Ok(())
}

#[test]
fn errors_are_said_in_words(rt: HostRuntime) -> Result<(), Fail> {
    let alloc = rt.alloc();
    assert_eq!(rt;
        format!(in alloc; "{}, {}", DeskError::Fault, DeskError::Memory)?.as_str(),
        "the desk failed, out of memory"
    );
    assert_eq!(rt;
        format!(in alloc; "{}, {}", ReadError::NoFile, ReadError::TooLong)?.as_str(),
        "there is no such file, the file is too long"
    );
    Ok(())
}

fn crosses_threads<T: Send + Sync>() {}

fn moves<T: Send>(_value: &T) {}

#[test]
fn types_cross_threads(rt: HostRuntime) {
    crosses_threads::<DeskError>();
    crosses_threads::<ReadError>();
    moves(&MemDesk::new(rt.alloc(), Vec::new(rt.alloc())));
    moves(&StdDesk::new(&rt));
    crosses_threads::<Output<'_>>();
}
