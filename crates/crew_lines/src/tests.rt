//! Readers that give few bytes at a time, and fail on the way.

ghost use Rattle.std.specs.Io.{ReadsAtMost};

use crate::{Line, Lines, Name, split};
use std::alloc::{AllocError, Global};
use std::io::{self, ErrorKind, Read};

// Gives its bytes in steps, and fails at each third call.
#[derive(Drop)]
struct Steps {
    bytes: Vec<u8>,
    given: usize,
    step: usize,
    calls: u32,
}

impl Read for Steps {
    fn read(&mut self, buffer: &mut [u8]) -> io::Result<usize>
        ensures { ReadsAtMost result buffer.new }
    {
        self.calls = self.calls.wrapping_add(1);
        if self.calls % 3 == 0 {
            return Err(io::Error::from(ErrorKind::Other));
        }
        let given = self.given.min(self.bytes.len());
        let left = &self.bytes.as_slice()[given..];
        let count = left.len().min(self.step).min(buffer.len());
        buffer[..count].copy_from_slice(&left[..count]);
        self.given = given + count;
        Ok(count)
    }
}

// Two short lines, an empty one, one of the most bytes, one of a byte more, one of three times as many,
// and a last one without an end.
fn input(alloc: Global) -> Result<Vec<u8>, AllocError> {
    let mut bytes = Vec::new(alloc);
    bytes.extend_from_slice(b"ops,settle\nscreen,best\n\n")?;
    for (byte, count) in [(b'm', 65_536), (b'l', 65_537), (b'h', 196_608)] {
        for _ in 0..count {
            bytes.push(byte)?;
        }
        bytes.push(b'\n')?;
    }
    bytes.extend_from_slice(b"ops,leave")?;
    Ok(bytes)
}

// Of each line whether it is long, how many bytes are shown and the first of them; and how many reads
// failed.
fn shown(alloc: Global, step: usize) -> Result<(Vec<(bool, usize, u8)>, u32), AllocError> {
    let bytes = input(alloc)?;
    let mut reader = Steps {
        bytes,
        given: 0,
        step,
        calls: 0,
    };
    let mut lines = Lines::new(alloc, &mut reader)?;
    let mut all = Vec::new(alloc);
    let mut faults = 0u32;
    for _ in 0..1_000_000 {
        match lines.advance() {
            Ok(true) => all.push(match lines.line() {
                Line::Whole(bytes) => (false, bytes.len(), bytes.first().copied().unwrap_or(0)),
                Line::Long(bytes) => (true, bytes.len(), bytes.first().copied().unwrap_or(0)),
            })?,
            Ok(false) => break,
            Err(_) => faults = faults.wrapping_add(1),
        }
    }
    Ok((all, faults))
}

#[test]
fn every_line_comes_whatever_the_reads(rt: HostRuntime) -> Result<(), AllocError> {
    let expected = [
        (false, 10, b'o'),
        (false, 11, b's'),
        (false, 0, 0),
        (false, 65_536, b'm'),
        (true, 33, b'l'),
        (true, 33, b'h'),
        (false, 9, b'o'),
    ];
    for step in [97, 4_096, 65_536, 1_000_000] {
        let (all, faults) = shown(rt.alloc(), step)?;
        assert_eq!(rt; all.as_slice(), expected.as_slice(), "at {step}");
        assert!(rt; faults > 0);
    }
    Ok(())
}

#[test]
fn names_end_at_the_first_comma(rt: HostRuntime) {
    let (name, record) = split(b"a-B_9.,flight,101,JFK").expect(&rt, "a line");
    assert_eq!(rt; name.as_bytes(), b"a-B_9.".as_slice());
    assert_eq!(rt; record, b"flight,101,JFK".as_slice());
    assert!(rt; name.is(&Name::read(b"a-B_9.").expect(&rt, "a name")));
    assert!(rt; !name.is(&Name::read(b"a-B_9").expect(&rt, "a name")));
    let none: [&[u8]; 6] = [
        b"",
        b"settle",
        b",settle",
        b"a b,settle",
        b"a\xe9,settle",
        b"a23456789012345678901234567890123,settle",
    ];
    for line in none {
        assert!(rt; split(line).is_none());
    }
    let longest = split(b"a2345678901234567890123456789012,").expect(&rt, "a line");
    assert_eq!(rt; longest.0.as_bytes().len(), 32);
    assert!(rt; longest.1.is_empty());
}
