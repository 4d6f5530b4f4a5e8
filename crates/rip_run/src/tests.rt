use crate::{Status, Word, rip_plain};
use copy_lists::NoMemory;
use rip_ports::{Failed, MemSink, MemSource, Source};
use std::alloc::Global;

const DONE: &str = "%%[ done: 0 shown ]%%\n";

const USAGE: &str = "%%[ usage: rip_main render, plain, spec, split or sample ]%%\n";

const FLUSHING: &str = "%%[ Flushing: rest of job (to end-of-file) will be ignored ]%%\n";

/// What a call answered and what it wrote.
#[derive(Drop)]
struct Ended {
    status: Status,
    pages: MemSink,
    back: MemSink,
}

/// Gives so many spaces, and doesn't tell how many are left.
#[derive(Drop)]
struct Spaces {
    left: u64,
}

impl Source for Spaces {
    ghost use Rattle.std.specs.Prelude.{None};

    ghost left = { λ _. None };

    ghost faults = { λ _. 0 };

    fn take(&mut self, into: &mut [u8]) -> Result<usize, Failed> {
        let count = (into.len() as u64).min(self.left);
        into[..count as usize].fill(b' ');
        self.left -= count;
        Ok(count as usize)
    }
}

/// Calls with a source and sinks in memory that fail at these calls.
fn call(
    alloc: Global,
    words: &[&str],
    job: &[u8],
    source_fails: &[u64],
    back_fails: &[u64],
) -> Result<Ended, NoMemory> {
    let mut texts = Vec::new(alloc);
    for word in words {
        texts.push(Word::from_text(alloc, word)?)?;
    }
    let mut source = MemSource::new(
        Vec::from_slice(alloc, job)?,
        100_000,
        Vec::from_slice(alloc, source_fails)?,
    );
    let mut pages = MemSink::new(alloc, 1000, Vec::new(alloc))?;
    let mut back = MemSink::new(alloc, 1000, Vec::from_slice(alloc, back_fails)?)?;
    let status = rip_plain(
        alloc,
        texts.as_slice(),
        0,
        &mut source,
        &mut pages,
        &mut back,
    );
    Ok(Ended {
        status,
        pages,
        back,
    })
}

/// What the back channel gets of a job that says this, and is stopped by this error of this command.
fn told(alloc: Global, said: &str, stopped: Option<(&str, &str)>) -> Result<Vec<u8>, NoMemory> {
    let mut text = Vec::from_slice(alloc, said.as_bytes())?;
    if let Some((error, command)) = stopped {
        let report = format!(in alloc; "%%[ Error: {error}; OffendingCommand: {command} ]%%\n")?;
        text.extend_from_slice(report.as_bytes())?;
        text.extend_from_slice(FLUSHING.as_bytes())?;
    }
    text.extend_from_slice(DONE.as_bytes())?;
    Ok(text)
}

#[test]
fn answers_jobs(rt: HostRuntime) -> Result<(), NoMemory> {
    let alloc = rt.alloc();
    for (job, said, stopped) in [
        ("", "", None),
        ("1 2 add =", "3\n", None),
        ("foo", "", Some(("undefined", "foo"))),
        ("1 add", "", Some(("stackunderflow", "add"))),
        ("1 )", "", Some(("syntaxerror", "--nostringval--"))),
        ("1 = { 2", "1\n", Some(("syntaxerror", "--nostringval--"))),
        ("3 10 exch sub = % (\n", "7\n", None),
        ("2147483647 1 add =", "2147483648.0\n", None),
        ("1 0 div", "", Some(("undefinedresult", "div"))),
        ("\u{4}1 =\n\u{4}", "1\n", None),
        ("16#FF = 1.5 = (a) = /b =", "255\n1.5\na\nb\n", None),
        ("(abc) print", "abc\n", None),
        ("/f { dup mul = } def 5 f", "25\n", None),
        (
            "errordict /undefined { pop (met) = } put foo 3 =",
            "met\n3\n",
            None,
        ),
        ("[1 (a\\)) {add /b}] ==", "[1 (a\\)) {add /b}]\n", None),
        (
            "1 [2 3] stack pstack",
            "--nostringval--\n1\n[2 3]\n1\n",
            None,
        ),
        (
            "/f {1 2 add} bind def f = /f load ==",
            "3\n{1 2 --add--}\n",
            None,
        ),
        (
            "/a [1 2 3] def save a 0 9 put restore a 0 get =",
            "1\n",
            None,
        ),
        ("(12 34) token pop exch = =", "34\n12\n", None),
        ("currentfile 5 string readline\nabc\npop =", "abc\n", None),
        ("[1 2] readonly 0 3 put", "", Some(("invalidaccess", "put"))),
        (
            "%!PS-Adobe-3.0\n/x 1 def\n%%Page: 1 1\n/x x 1 add def\n%%Page: 2 2\nx =\n%%Trailer\n(end) print",
            "2\nend\n",
            None,
        ),
        (
            "%!PS-Adobe-3.0\n%%Page: 1 1\n1 = bar\n%%Page: 2 2\n2 =\n",
            "1\n",
            Some(("undefined", "bar")),
        ),
    ] {
        let call = call(alloc, &["plain"], job.as_bytes(), &[], &[])?;
        let status = match stopped {
            Some(_) => Status::JobError { reruns: 0 },
            None => Status::Done { reruns: 0 },
        };
        let told = told(alloc, said, stopped)?;
        assert_eq!(rt; call.status, status, "at {job}");
        assert_eq!(rt; call.back.bytes(), told.as_slice(), "at {job}");
        assert!(rt; call.pages.bytes().is_empty(), "at {job}");
    }
    Ok(())
}

/// A page has 20,000,000 turns, and a procedure that ends with its own name holds no frame.
#[test]
fn spends_the_turns(rt: HostRuntime) -> Result<(), NoMemory> {
    let alloc = rt.alloc();
    let job = b"%!PS-Adobe-3.0\n/f { f } def\n%%Page: 1 1\n1 = f\n%%Page: 2 2\n2 =\n";
    let call = call(alloc, &["plain"], job, &[], &[])?;
    let told = told(alloc, "1\n", Some(("timeout", "--nostringval--")))?;
    assert_eq!(rt; call.status, Status::JobError { reruns: 0 });
    assert_eq!(rt; call.back.bytes(), told.as_slice());
    Ok(())
}

#[test]
fn answers_words_and_faults(rt: HostRuntime) -> Result<(), NoMemory> {
    let alloc = rt.alloc();
    // Wrong words are refused before the source could fail.
    let no_words = call(alloc, &[], b"1 =", &[1], &[])?;
    assert_eq!(rt; no_words.status, Status::Usage);
    assert_eq!(rt; no_words.back.bytes(), USAGE.as_bytes());
    let unknown = call(alloc, &["render"], b"1 =", &[1], &[])?;
    assert_eq!(rt; unknown.status, Status::Usage);
    let too_many = call(alloc, &["plain", "plain"], b"1 =", &[1], &[])?;
    assert_eq!(rt; too_many.status, Status::Usage);
    let sized = call(
        alloc,
        &["plain", "--dpi=300", "--width", "8192"],
        b"1 =",
        &[],
        &[],
    )?;
    assert_eq!(rt; sized.status, Status::Done { reruns: 0 });

    for number in [1, 2] {
        let unread = call(alloc, &["plain"], b"1 =", &[number], &[])?;
        assert_eq!(rt; unread.status, Status::ReadFault);
        assert!(rt; unread.back.bytes().is_empty());
    }

    // A failing sink in memory keeps the first half of the piece.
    let unwritten = call(alloc, &["plain"], b"", &[], &[1])?;
    assert_eq!(rt; unwritten.status, Status::WriteFault);
    assert_eq!(rt; unwritten.back.bytes(), b"%%[ done: 0".as_slice());
    for (status, exit) in [
        (Status::Done { reruns: 3 }, 0),
        (Status::JobError { reruns: 0 }, 1),
        (Status::Usage, 2),
        (Status::TooLarge, 3),
        (Status::TooManyPages { count: 100_001 }, 3),
        (Status::ReadFault, 4),
        (Status::WriteFault, 5),
        (Status::NoMemory, 6),
    ] {
        assert_eq!(rt; status.exit(), exit);
    }
    Ok(())
}

#[test]
fn splits_jobs(rt: HostRuntime) -> Result<(), NoMemory> {
    let alloc = rt.alloc();
    let job =
        b"%!PS-Adobe-3.0\n%%EndProlog\n%%Page: 1 1\n%%BeginDocument: in.eps\n%%Page: 1 1\n%%EndDocument\n%%BeginData: 11 ASCII Bytes\n%%Page: x 9\n%%EndData\nshowpage\n%%Page: 2 2\n(cut\n%%Trailer\n";
    let list = "1 prolog 0 27\n2 setup 27 0\n3 page 27 121\n4 page 148 17\n5 trailer 165 10\n";
    let split = call(alloc, &["split"], job, &[], &[])?;
    assert_eq!(rt; split.status, Status::Done { reruns: 0 });
    assert_eq!(rt; split.back.bytes(), list.as_bytes());

    let mut pages = Vec::from_slice(alloc, b"%!PS-Adobe-3.0\n")?;
    for _ in 0..100_001 {
        pages.extend_from_slice(b"%%Page:\n")?;
    }
    for command in ["plain", "split"] {
        let refused = call(alloc, &[command], pages.as_slice(), &[], &[])?;
        assert_eq!(rt; refused.status, Status::TooManyPages { count: 100_001 });
        assert_eq!(rt;
            refused.back.bytes(),
            b"%%[ job refused: 100001 pages ]%%\n".as_slice()
        );
    }
    Ok(())
}

#[test]
fn refuses_large_jobs(rt: HostRuntime) -> Result<(), NoMemory> {
    let alloc = rt.alloc();
    for (left, status, back, unread) in [
        (268_435_456, Status::Done { reruns: 0 }, DONE, 0),
        (
            268_600_000,
            Status::TooLarge,
            "%%[ job refused: too large ]%%\n",
            164_543,
        ),
    ] {
        let mut pages = MemSink::new(alloc, 1000, Vec::new(alloc))?;
        let mut sink = MemSink::new(alloc, 1000, Vec::new(alloc))?;
        let mut words = Vec::new(alloc);
        words.push(Word::from_text(alloc, "plain")?)?;
        let mut source = Spaces { left };
        let answer = rip_plain(
            alloc,
            words.as_slice(),
            0,
            &mut source,
            &mut pages,
            &mut sink,
        );
        assert_eq!(rt; answer, status);
        assert_eq!(rt; sink.bytes(), back.as_bytes());
        assert_eq!(rt; source.left, unread);
    }
    Ok(())
}
