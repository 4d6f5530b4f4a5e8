//! Streams and their jobs, as the rules give them.
use crate::{CONTROL_D, Fed, JOB_LIMIT, JobReader, Text};
use std::alloc::Global;
use std::test::Fail;

/// Streams and their jobs, each in angle brackets.
const CASES: [(&[u8], &str); 12] = [
    (b"", ""),
    (b"\x04\x04\x04\n", ""),
    (b"\0\t\n\x0c\r \x04", ""),
    (b"/x 1 def\x04x =\n\x04", "</x 1 def><x =\n>"),
    (b"1 =", "<1 =>"),
    (b"1 =\x042 =", "<1 =><2 =>"),
    (b"\x04\x041 =\x04\x04", "<1 =>"),
    (b" \n\x04 1 = \x04 ", "< 1 = >"),
    (b"\n\n1 =\n\n\x04\t2 =", "<\n\n1 =\n\n><\t2 =>"),
    (b"\x0b\x04\x08\x04\x05\x04!", "<\x0b><\x08><\x05><!>"),
    (
        b"%%BeginBinary: 3\na\x04b\n%%EndBinary",
        "<%%BeginBinary: 3\na><b\n%%EndBinary>",
    ),
    (b"\x03\x04\x05\x06", "<\x03><\x05\x06>"),
];

/// Puts a job in angle brackets behind others.
fn push_job(out: &mut String, fed: Fed) -> Result<(), Fail> {
    match fed {
        Fed::More => {}
        Fed::Large => out.push_str("<large>")?,
        Fed::Job(job) => {
            out.push('<')?;
            for byte in job.as_slice() {
                out.push(char::from(*byte))?;
            }
            out.push('>')?;
        }
    }
    Ok(())
}

/// The jobs of a stream that is fed byte by byte.
fn jobs_by_bytes(alloc: Global, stream: &[u8]) -> Result<String, Fail> {
    let mut out = String::new(alloc);
    let mut reader = JobReader::new(alloc);
    for byte in stream {
        push_job(&mut out, reader.feed(*byte)?)?;
    }
    push_job(&mut out, reader.end())?;
    Ok(out)
}

/// The jobs of a stream that is fed in pieces of at most so many bytes.
fn jobs_by_fronts(alloc: Global, stream: &[u8], most: usize) -> Result<String, Fail> {
    let mut out = String::new(alloc);
    let mut reader = JobReader::new(alloc);
    let mut rest = stream;
    'fronts: for _ in 0..stream.len() {
        let front = reader.feed_front(&rest[..most.min(rest.len())])?;
        push_job(&mut out, front.fed)?;
        (_, rest) = rest.split_at(front.taken);
    }
    push_job(&mut out, reader.end())?;
    Ok(out)
}

#[test]
fn tells_jobs(rt: HostRuntime) -> Result<(), Fail> {
    for (stream, jobs) in &CASES {
        let told = jobs_by_bytes(rt.alloc(), stream)?;
        assert_eq!(rt; told.as_str(), *jobs);
        for most in [1, 2, 5, 100] {
            let told = jobs_by_fronts(rt.alloc(), stream, most)?;
            assert_eq!(rt; told.as_str(), *jobs, "{most} bytes at most");
        }
    }
    Ok(())
}

/// Feeds so many equal bytes, in blocks, and then ends the piece.
fn fed_equal(
    reader: &mut JobReader,
    block: &[u8],
    blocks: usize,
    last: &[u8],
) -> Result<Fed, Fail> {
    for _ in 0..blocks {
        let _more = reader.feed_front(block)?;
    }
    let _more = reader.feed_front(last)?;
    Ok(reader.feed(CONTROL_D)?)
}

fn length_of(fed: &Fed) -> Option<usize> {
    match fed {
        Fed::More => Some(0),
        Fed::Job(job) => Some(job.len()),
        Fed::Large => None,
    }
}

#[test]
fn tells_large_pieces(rt: HostRuntime) -> Result<(), Fail> {
    let mut reader = JobReader::new(rt.alloc());
    let letters = vec![in rt.alloc(); b'a'; 1_048_576]?;
    let spaces = vec![in rt.alloc(); b' '; 1_048_576]?;
    assert_eq!(rt; letters.len() * 256, JOB_LIMIT);
    let whole = fed_equal(&mut reader, &letters, 256, b"")?;
    assert_eq!(rt; length_of(&whole), Some(268_435_456));
    let large = fed_equal(&mut reader, &letters, 256, b"b")?;
    assert_eq!(rt; length_of(&large), None);
    let blank = fed_equal(&mut reader, &spaces, 256, b"\n")?;
    assert_eq!(rt; length_of(&blank), Some(0));
    let large = fed_equal(&mut reader, &spaces, 257, b"1 =")?;
    assert_eq!(rt; length_of(&large), None);
    let job = fed_equal(&mut reader, b"1 =", 1, b"")?;
    assert_eq!(rt; length_of(&job), Some(3));
    Ok(())
}
