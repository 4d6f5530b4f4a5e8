//! Jobs and their sections, as the rules give them.
use crate::{MAX_PAGES, Sections, SplitError, split};
use std::alloc::{AllocError, Global};
use std::fmt::Write;
use std::process::Abort;
use std::test::Fail;

/// A job and its sections.
struct Case {
    name: &'static str,
    job: &'static [u8],
    sections: &'static str,
}

const CASES: [Case; 47] = [
    Case {
        name: "no bytes at all",
        job: b"",
        sections: "1 prolog 0 0, 2 setup 0 0, 3 trailer 0 0",
    },
    Case {
        name: "only Control-D bytes",
        job: b"\x04\x04\x04",
        sections: "1 prolog 3 0, 2 setup 3 0, 3 trailer 3 0",
    },
    Case {
        name: "a header and nothing else",
        job: b"%!PS-Adobe-3.0",
        sections: "1 prolog 0 14, 2 setup 14 0, 3 trailer 14 0",
    },
    Case {
        name: "no header",
        job: b"%!PS\n%%EndProlog\n%%Page: 1 1\n%%Trailer\n",
        sections: "1 prolog 0 39, 2 setup 39 0, 3 trailer 39 0",
    },
    Case {
        name: "a header behind a space",
        job: b" %!PS-Adobe-3.0\n%%Page: 1 1\n",
        sections: "1 prolog 0 28, 2 setup 28 0, 3 trailer 28 0",
    },
    Case {
        name: "lines that end in CR LF",
        job: b"%!PS-Adobe-3.0\r\n%%EndProlog\r\nsetup\r\n%%Page: 1 1\r\n%%Page: 2 2\r\n%%Trailer\r\nend\r\n",
        sections: "1 prolog 0 29, 2 setup 29 7, 3 page 36 13, 4 page 49 13, 5 trailer 62 16",
    },
    Case {
        name: "lines that end in CR",
        job: b"%!PS-Adobe-3.0\r%%EndProlog\rsetup\r%%Page: 1 1\r%%Page: 2 2\r%%Trailer\rend\r",
        sections: "1 prolog 0 27, 2 setup 27 6, 3 page 33 12, 4 page 45 12, 5 trailer 57 14",
    },
    Case {
        name: "line ends mixed",
        job: b"%!PS-Adobe-3.0\n\r%%EndProlog\r\r\n%%Page: 1 1\r\n\n%%Page: 2 2\n%%Trailer\r%%Page: 3 3",
        sections: "1 prolog 0 28, 2 setup 28 2, 3 page 30 14, 4 page 44 12, 5 trailer 56 21",
    },
    Case {
        name: "no `%%EndProlog`, a page first",
        job: b"%!PS-Adobe-3.0\na\n%%Page: 1 1\nb\n",
        sections: "1 prolog 0 17, 2 setup 17 0, 3 page 17 14, 4 trailer 31 0",
    },
    Case {
        name: "no `%%EndProlog`, the trailer first",
        job: b"%!PS-Adobe-3.0\na\n%%Trailer\n%%Page: 1 1\nb\n",
        sections: "1 prolog 0 17, 2 setup 17 0, 3 trailer 17 24",
    },
    Case {
        name: "`%%EndProlog` late",
        job: b"%!PS-Adobe-3.0\n%%Page: 1 1\n%%EndProlog\n%%Page: 2 2\n",
        sections: "1 prolog 0 15, 2 setup 15 0, 3 page 15 24, 4 page 39 12, 5 trailer 51 0",
    },
    Case {
        name: "`%%EndProlog` twice",
        job: b"%!PS-Adobe-3.0\n%%EndProlog\na\n%%EndProlog\nb\n%%Page: 1 1\n",
        sections: "1 prolog 0 27, 2 setup 27 16, 3 page 43 12, 4 trailer 55 0",
    },
    Case {
        name: "`%%EndProlog` and nothing else",
        job: b"%!PS-Adobe-3.0\n%%EndProlog\nsetup\n",
        sections: "1 prolog 0 27, 2 setup 27 6, 3 trailer 33 0",
    },
    Case {
        name: "the trailer twice",
        job: b"%!PS-Adobe-3.0\n%%EndProlog\n%%Page: 1 1\n%%Trailer\na\n%%Trailer\n%%Page: 2 2\n",
        sections: "1 prolog 0 27, 2 setup 27 0, 3 page 27 12, 4 trailer 39 34",
    },
    Case {
        name: "the trailer before the first page",
        job: b"%!PS-Adobe-3.0\n%%EndProlog\ns\n%%Trailer\n%%Page: 1 1\n",
        sections: "1 prolog 0 27, 2 setup 27 2, 3 trailer 29 22",
    },
    Case {
        name: "names that go on, and names behind a space",
        job: b"%!PS-Adobe-3.0\n%%EndPrologs\n%%Trailer:\n %%Page: 1\n%%Page 1\n%%EndProlog\x0c\n%%EndProlog\tx\ns\n%%Page:1\n%%Trailers\n%%Trailer x\n",
        sections: "1 prolog 0 86, 2 setup 86 2, 3 page 88 20, 4 trailer 108 12",
    },
    Case {
        name: "a comment that the job's end cuts",
        job: b"%!PS-Adobe-3.0\n%%EndProlog\n%%Page: 1 1\n%%Traile",
        sections: "1 prolog 0 27, 2 setup 27 0, 3 page 27 20, 4 trailer 47 0",
    },
    Case {
        name: "a comment that ends with the job",
        job: b"%!PS-Adobe-3.0\n%%Page:1\n%%Trailer",
        sections: "1 prolog 0 15, 2 setup 15 0, 3 page 15 9, 4 trailer 24 9",
    },
    Case {
        name: "a comment before a Control-D byte at the end",
        job: b"%!PS-Adobe-3.0\n%%EndProlog\x04\x04",
        sections: "1 prolog 0 26, 2 setup 26 0, 3 trailer 26 0",
    },
    Case {
        name: "Control-D bytes around and inside",
        job: b"\x04\x04%!PS-Adobe-3.0\n\x04\n%%EndProlog\n\x04%%Page: 0 0\n%%Page: 1 1\x04\n%%Trailer\x04\n%%Trailer\n\x04",
        sections: "1 prolog 2 29, 2 setup 31 13, 3 page 44 24, 4 trailer 68 10",
    },
    Case {
        name: "an inner document",
        job: b"%!PS-Adobe-3.0\n%%BeginDocument: a\n%%EndProlog\n%%Page: 1 1\n%%Trailer\n%%EndDocument\n%%Page: 2 2\n",
        sections: "1 prolog 0 82, 2 setup 82 0, 3 page 82 12, 4 trailer 94 0",
    },
    Case {
        name: "nested inner documents",
        job: b"%!PS-Adobe-3.0\n%%BeginDocument: a\n%%BeginDocument: b\n%%EndDocument\n%%Page: 1 1\n%%EndDocument\n%%Page: 2 2\n",
        sections: "1 prolog 0 93, 2 setup 93 0, 3 page 93 12, 4 trailer 105 0",
    },
    Case {
        name: "an inner document that isn't closed",
        job: b"%!PS-Adobe-3.0\n%%EndProlog\n%%BeginDocument: a\n%%Page: 1 1\n%%Trailer\n",
        sections: "1 prolog 0 27, 2 setup 27 41, 3 trailer 68 0",
    },
    Case {
        name: "a close with none open",
        job: b"%!PS-Adobe-3.0\n%%EndDocument\n%%EndDocument\n%%BeginDocument: a\n%%Page: 1 1\n%%EndDocument x\n%%Page: 2 2\n",
        sections: "1 prolog 0 90, 2 setup 90 0, 3 page 90 12, 4 trailer 102 0",
    },
    Case {
        name: "a close whose name goes on",
        job: b"%!PS-Adobe-3.0\n%%BeginDocument: a\n%%EndDocuments\n%%Page: 1 1\n%%EndDocument\n%%Page: 2 2\n",
        sections: "1 prolog 0 75, 2 setup 75 0, 3 page 75 12, 4 trailer 87 0",
    },
    Case {
        name: "data in bytes",
        job: b"%!PS-Adobe-3.0\n%%EndProlog\n%%BeginData: 12\n%%Page: 1 1\n%%Page: 2 2\n",
        sections: "1 prolog 0 27, 2 setup 27 28, 3 page 55 12, 4 trailer 67 0",
    },
    Case {
        name: "data in bytes, named so",
        job: b"%!PS-Adobe-3.0\n%%BeginData: 12 Hex Bytes\n%%Page: 1 1\n%%Page: 2 2\n",
        sections: "1 prolog 0 53, 2 setup 53 0, 3 page 53 12, 4 trailer 65 0",
    },
    Case {
        name: "data in lines",
        job: b"%!PS-Adobe-3.0\n%%BeginData: 2 ASCII Lines\n%%Page: 1 1\r\n%%Page: 2 2\r%%Page: 3 3\n",
        sections: "1 prolog 0 67, 2 setup 67 0, 3 page 67 12, 4 trailer 79 0",
    },
    Case {
        name: "data in lines, with no type word",
        job: b"%!PS-Adobe-3.0\n%%BeginData:\t1\tLines \n%%Page: 1 1\n%%Page: 2 2\n",
        sections: "1 prolog 0 49, 2 setup 49 0, 3 page 49 12, 4 trailer 61 0",
    },
    Case {
        name: "a fourth word",
        job: b"%!PS-Adobe-3.0\n%%BeginData: 1 ASCII Lines x\n%%Page: 1 1\n%%Page: 2 2\n",
        sections: "1 prolog 0 56, 2 setup 56 0, 3 page 56 12, 4 trailer 68 0",
    },
    Case {
        name: "the word `Lines` in another place",
        job: b"%!PS-Adobe-3.0\n%%BeginData: 1 Lines Bytes\n%%Page: 1 1\n%%BeginData: 1 ASCII lines\n%%Page: 2 2\n%%BeginData: 1 a b Lines\n%%Page: 3 3\n",
        sections: "1 prolog 0 130, 2 setup 130 0, 3 trailer 130 0",
    },
    Case {
        name: "a count that isn't a row of digits",
        job: b"%!PS-Adobe-3.0\n%%BeginData: +30\n%%Page: 1 1\n%%BeginData: 3a Lines\n%%Page: 2 2\n%%BeginData:\n%%Page: 3 3\n%%BeginData: Lines\n%%Page: 4 4\n",
        sections: "1 prolog 0 32, 2 setup 32 0, 3 page 32 34, 4 page 66 25, 5 page 91 31, 6 page 122 12, 7 trailer 134 0",
    },
    Case {
        name: "a count of 0",
        job: b"%!PS-Adobe-3.0\n%%BeginData: 0\n%%Page: 1 1\n%%BeginData: 00 Lines\n%%Page: 2 2\n",
        sections: "1 prolog 0 30, 2 setup 30 0, 3 page 30 34, 4 page 64 12, 5 trailer 76 0",
    },
    Case {
        name: "less left than is counted",
        job: b"%!PS-Adobe-3.0\n%%EndProlog\n%%BeginData: 99\n%%Page: 1 1\n%%Page: 2 2\n",
        sections: "1 prolog 0 27, 2 setup 27 40, 3 trailer 67 0",
    },
    Case {
        name: "fewer lines left than are counted",
        job: b"%!PS-Adobe-3.0\n%%BeginData: 9 Lines\n%%Page: 1 1\n%%Page: 2 2",
        sections: "1 prolog 0 59, 2 setup 59 0, 3 trailer 59 0",
    },
    Case {
        name: "counts beyond 64 bits",
        job: b"%!PS-Adobe-3.0\n%%Page: 1 1\n%%BeginData: 18446744073709551617\n%%Page: 2 2\n",
        sections: "1 prolog 0 15, 2 setup 15 0, 3 page 15 58, 4 trailer 73 0",
    },
    Case {
        name: "lines beyond 64 bits",
        job: b"%!PS-Adobe-3.0\n%%Page: 1 1\n%%BeginData: 36893488147419103233 Lines\n%%Page: 2 2\n",
        sections: "1 prolog 0 15, 2 setup 15 0, 3 page 15 64, 4 trailer 79 0",
    },
    Case {
        name: "data that ends inside of a line",
        job: b"%!PS-Adobe-3.0\n%%BeginData: 3\nabc%%Page: 1 1\nx%%Page: 2 2\n",
        sections: "1 prolog 0 33, 2 setup 33 0, 3 page 33 25, 4 trailer 58 0",
    },
    Case {
        name: "data that ends inside of CR LF",
        job: b"%!PS-Adobe-3.0\n%%BeginData: 2\na\r\n%%Page: 1 1\n",
        sections: "1 prolog 0 33, 2 setup 33 0, 3 page 33 12, 4 trailer 45 0",
    },
    Case {
        name: "data that ends inside of CR LF, then lines",
        job: b"%!PS-Adobe-3.0\n%%BeginData: 2\na\r\n%%BeginData: 1 Lines\nq\r\n%%Page: 1 1\n",
        sections: "1 prolog 0 57, 2 setup 57 0, 3 page 57 12, 4 trailer 69 0",
    },
    Case {
        name: "binary data",
        job: b"%!PS-Adobe-3.0\n%%BeginBinary: 12 ASCII Lines\n%%Page: 1 1\n%%EndBinary\n%%Page: 2 2\n",
        sections: "1 prolog 0 69, 2 setup 69 0, 3 page 69 12, 4 trailer 81 0",
    },
    Case {
        name: "data inside of an inner document",
        job: b"%!PS-Adobe-3.0\n%%BeginDocument: a\n%%BeginData: 14\n%%EndDocument\n%%Page: 1 1\n%%EndDocument\n%%Page: 2 2\n",
        sections: "1 prolog 0 90, 2 setup 90 0, 3 page 90 12, 4 trailer 102 0",
    },
    Case {
        name: "an inner document inside of data",
        job: b"%!PS-Adobe-3.0\n%%BeginData: 19\n%%BeginDocument: a\n%%Page: 1 1\n",
        sections: "1 prolog 0 50, 2 setup 50 0, 3 page 50 12, 4 trailer 62 0",
    },
    Case {
        name: "data whose line ends with the job",
        job: b"%!PS-Adobe-3.0\n%%Page: 1 1\n%%BeginData: 5",
        sections: "1 prolog 0 15, 2 setup 15 0, 3 page 15 26, 4 trailer 41 0",
    },
    Case {
        name: "no space before the count",
        job: b"%!PS-Adobe-3.0\n%%BeginData:12\n%%Page: 1 1\n%%Page: 2 2\n",
        sections: "1 prolog 0 42, 2 setup 42 0, 3 page 42 12, 4 trailer 54 0",
    },
    Case {
        name: "an inner document, data and a page that is cut off",
        job: b"%!PS-Adobe-3.0\n%%EndProlog\n%%Page: 1 1\n%%BeginDocument: in.eps\n%%Page: 1 1\n%%EndDocument\n%%BeginData: 11 ASCII Bytes\n%%Page: x 9\n%%EndData\nshowpage\n%%Page: 2 2\n(cut\n%%Trailer\n",
        sections: "1 prolog 0 27, 2 setup 27 0, 3 page 27 121, 4 page 148 17, 5 trailer 165 10",
    },
    Case {
        name: "Control-D bytes round a job with no header",
        job: b"\x041 =\n\x04",
        sections: "1 prolog 1 4, 2 setup 5 0, 3 trailer 5 0",
    },
];

/// The sections of a job, or the refusal, as text.
fn listed(rt: &impl Abort, alloc: Global, job: &[u8]) -> Result<String, AllocError> {
    assert!(rt; job.len() <= 268_435_456);
    let mut text = String::new(alloc);
    match split(alloc, job) {
        Ok(sections) => {
            for section in sections.as_slice() {
                if !text.is_empty() {
                    text.push_str(", ")?;
                }
                write!(text, "{section}")?;
            }
        }
        Err(refusal) => write!(text, "{refusal:?}")?,
    }
    Ok(text)
}

#[test]
fn cuts_jobs(rt: HostRuntime) -> Result<(), Fail> {
    for case in &CASES {
        let name = case.name;
        let text = listed(&rt, rt.alloc(), case.job)?;
        assert_eq!(rt; text.as_str(), case.sections, "{name}");
    }
    Ok(())
}

/// A job with so many pages of their first line alone.
fn paged(alloc: Global, pages: u32) -> Result<Vec<u8>, AllocError> {
    let mut job = Vec::from_slice(alloc, b"%!PS-Adobe-3.0\n%%EndProlog\n")?;
    for _ in 0..pages {
        job.extend_from_slice(b"%%Page: 1 1\n")?;
    }
    Ok(job)
}

#[test]
fn counts_pages(rt: HostRuntime) -> Result<(), Fail> {
    let full = paged(rt.alloc(), MAX_PAGES)?;
    assert!(rt; full.len() <= 268_435_456);
    let sections = split(rt.alloc(), &full)?.into_vec();
    assert_eq!(rt; sections.len(), 100_003);
    let page = sections[100_001];
    assert_eq!(rt;
        (page.number, page.from, page.len),
        (100_002, 1_200_015, 12)
    );
    assert!(rt; page.from + page.len <= 1_200_027 && full.len() == 1_200_027);
    assert_eq!(rt; page.text(&full), b"%%Page: 1 1\n".as_slice());
    assert_eq!(rt; Sections::from_vec(sections).as_slice().len(), 100_003);

    let over = paged(rt.alloc(), MAX_PAGES + 1)?;
    assert!(rt; over.len() <= 268_435_456);
    assert_eq!(rt;
        split(rt.alloc(), &over).err(),
        Some(SplitError::TooManyPages { count: 100_001 })
    );
    Ok(())
}
