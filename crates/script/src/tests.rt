use crate::header::{read_header, read_header_as};
use crate::step::read_step;
use crate::types::{Row, Step};
use std::test::Fail;
use text::lines::{BadLine, Lines};

static STEPS: [(&[u8], Step); 9] = [
    (b"step=r 13", Step::Read(13)),
    (
        b"step=w 013 18446744073709551615",
        Step::Write(13, 18446744073709551615),
    ),
    (b"step=s", Step::Flush),
    (b"step=d", Step::Restart),
    (b"step=p 0", Step::Recharge(Some(0))),
    (b"step=p none", Step::Recharge(None)),
    (b"step=k 583", Step::Copy(583)),
    (b"step=m 584", Step::Put(584)),
    (b"step=r 00000000000000000000000000", Step::Read(0)),
];

static UNREADABLE: [&[u8]; 14] = [
    b"",
    b"step=",
    b"step=x",
    b"step=r",
    b"step=r13",
    b"step=r  13",
    b"step=r 13 ",
    b"step=r 13 7",
    b"step=w 13",
    b"step=s ",
    b"step=p",
    b"step=p None",
    b"step=r 18446744073709551616",
    b"step=r 1\xff",
];

#[test]
fn steps(rt: HostRuntime) {
    for (line, expected) in &STEPS {
        assert_eq!(rt; read_step(line), Some(*expected));
    }
    for line in &UNREADABLE {
        assert_eq!(rt; read_step(line), None);
    }
}

// Headers, and the number of the first line that is missing or unreadable.
static HEADERS: [(&[u8], u64); 7] = [
    (b"", 1),
    (b"levels=2\n\n", 2),
    (b"levels=99\nslots=0", 3),
    (b"levels=2\nslots=1\nsuite=3\nkey=\n", 3),
    (b"levels=2\nslots=1\nsuite=2\nkey=00\n", 4),
    (
        b"levels=2\nslots=1\nsuite=2\nkey=0000000000000000000000000000000000000000000000000000000000000000\n",
        5,
    ),
    (
        b"levels=2\nslots=1\nsuite=2\nkey=0000000000000000000000000000000000000000000000000000000000000000\nfuse=no\n",
        5,
    ),
];

#[test]
fn headers(rt: HostRuntime) -> Result<(), Fail> {
    for (text, expected) in &HEADERS {
        match read_header(text, &[1, 2]) {
            Ok(_) => return Err(Fail::new("a bad header was read")),
            Err(line) => assert_eq!(rt; line, *expected),
        }
    }
    let text =
        b"levels=3\nslots=64\nsuite=2\nkey=000102030405060708090a0b0c0d0e0f101112131415161718191A1B1C1D1E1F\nfuse=none\nstep=s";
    match read_header(text, &[1, 2]) {
        Ok((header, rest)) => {
            assert_eq!(rt; header.levels, 3);
            assert_eq!(rt; header.slots, 64);
            assert_eq!(rt; header.suite, 2);
            assert_eq!(rt; header.keys.mac[15], 15);
            assert_eq!(rt; header.keys.pad[15], 31);
            assert_eq!(rt; header.fuse, None);
            assert_eq!(rt; rest, b"step=s".as_slice());
            Ok(())
        }
        Err(_) => Err(Fail::new("a header was not read")),
    }
}

// The suites at hand, each number beside itself.
static SUITES: [(u64, u64); 2] = [(1, 1), (2, 2)];

#[test]
fn headers_as(rt: HostRuntime) -> Result<(), Fail> {
    for (text, expected) in &HEADERS {
        match read_header_as(text, &SUITES) {
            Ok(_) => return Err(Fail::new("a bad header was read")),
            Err(line) => assert_eq!(rt; line, BadLine { number: *expected }),
        }
    }
    let text =
        b"levels=3\nslots=64\nsuite=2\nkey=000102030405060708090a0b0c0d0e0f101112131415161718191A1B1C1D1E1F\nfuse=none\nstep=s";
    match read_header_as(text, &SUITES) {
        Ok((header, rest)) => {
            assert_eq!(rt; header.levels, 3);
            assert_eq!(rt; header.slots, 64);
            assert_eq!(rt; header.suite, 2);
            assert_eq!(rt; header.keys.mac[15], 15);
            assert_eq!(rt; header.keys.pad[15], 31);
            assert_eq!(rt; header.fuse, None);
            assert_eq!(rt; rest, b"step=s".as_slice());
            Ok(())
        }
        Err(_) => Err(Fail::new("a header was not read")),
    }
}

#[test]
fn lines(rt: HostRuntime) -> Result<(), Fail> {
    let mut lines = Lines { text: b"s\n\nd" };
    assert_eq!(rt; lines.next(), Some(b"s".as_slice()));
    assert_eq!(rt; lines.next(), Some(b"".as_slice()));
    assert_eq!(rt; lines.next(), Some(b"d".as_slice()));
    assert_eq!(rt; lines.next(), None);
    let text = BadLine { number: 3 }.to_string(rt.alloc())?;
    assert_eq!(rt; text.as_str(), "bad=3");
    Ok(())
}

#[test]
fn rows(rt: HostRuntime) -> Result<(), Fail> {
    let row = Row {
        step: 6,
        result: 8,
        layer: 2,
        at: 13,
        value: 0,
        commits: 0,
        ahead: 1,
        total: 3,
    };
    let text = row.to_string(rt.alloc())?;
    assert_eq!(rt; text.as_str(), "6 8 2 13 0 0 1 3");
    Ok(())
}
