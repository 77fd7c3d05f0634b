// Texts that keep the format up to one point.
use crate::show;
use std::alloc::{AllocError, Global};

// 96 rows: the number of the quarter, then the same fields in each.
fn with_rows(heap: Global, header: &str, fields: &str, end: &str) -> Result<Vec<u8>, AllocError> {
    let mut text = Vec::new(heap);
    text.extend_from_slice(header.as_bytes())?;
    text.extend_from_slice(end.as_bytes())?;
    for q in 0..96u32 {
        let number = format!(in heap; "{q}")?;
        text.extend_from_slice(number.as_bytes())?;
        text.extend_from_slice(fields.as_bytes())?;
        text.extend_from_slice(end.as_bytes())?;
    }
    Ok(text)
}

struct Case {
    name: &'static str,
    header: &'static str,
    fields: &'static str,
    end: &'static str,
}

const CASES: [Case; 15] = [
    Case {
        name: "plain",
        header: "QUARTER;A1;A2;STATE",
        fields: ";0,001;0,003;M",
        end: "\n",
    },
    Case {
        name: "turned",
        header: "QUARTER;A2;A1;STATE",
        fields: ";0,001;0,003;M",
        end: "\n",
    },
    Case {
        name: "crlf",
        header: "QUARTER;A1;A2;STATE",
        fields: ";0,001;0,003;M",
        end: "\r\n",
    },
    Case {
        name: "sixteen",
        header: "QUARTER;A1;A2;STATE;;;;;;;;;;;;",
        fields: ";0,001;0,003;M;;;;;;;;;;;;",
        end: "\n",
    },
    Case {
        name: "seventeen",
        header: "QUARTER;A1;A2;STATE;;;;;;;;;;;;;",
        fields: ";0,001;0,003;M;;;;;;;;;;;;;",
        end: "\n",
    },
    Case {
        name: "repeated",
        header: "QUARTER;A1;A2;A1;STATE",
        fields: ";0,001;0,003;0,001;M",
        end: "\n",
    },
    Case {
        name: "missing",
        header: "QUARTER;A1;STATE",
        fields: ";0,001;M",
        end: "\n",
    },
    Case {
        name: "most",
        header: "QUARTER;A1;A2;STATE",
        fields: ";0,000;1000,000;M",
        end: "\n",
    },
    Case {
        name: "beyond",
        header: "QUARTER;A1;A2;STATE",
        fields: ";0,000;1000,001;M",
        end: "\n",
    },
    Case {
        name: "beyond-estimated",
        header: "QUARTER;A1;A2;STATE",
        fields: ";0,000;1000,001;E",
        end: "\n",
    },
    Case {
        name: "needless-zero",
        header: "QUARTER;A1;A2;STATE",
        fields: ";00,001;0,003;M",
        end: "\n",
    },
    Case {
        name: "two-digits",
        header: "QUARTER;A1;A2;STATE",
        fields: ";0,001;0,03;M",
        end: "\n",
    },
    Case {
        name: "letter",
        header: "QUARTER;A1;A2;STATE",
        fields: ";0,001;0,003;m",
        end: "\n",
    },
    Case {
        name: "too-few",
        header: "QUARTER;A1;A2;STATE;NOTE",
        fields: ";0,001;0,003;M",
        end: "\n",
    },
    Case {
        name: "too-many",
        header: "QUARTER;A1;A2;STATE",
        fields: ";0,001;0,003;M;",
        end: "\n",
    },
];

fn whole_texts(rt: &HostRuntime) -> anyhow::Result<()> {
    for case in &CASES {
        show(
            rt,
            case.name,
            with_rows(rt.alloc(), case.header, case.fields, case.end)?.as_slice(),
        )?;
    }
    Ok(())
}

fn headers(rt: &HostRuntime) -> anyhow::Result<()> {
    show(rt, "empty", b"")?;
    show(rt, "header-alone", b"QUARTER;A1;A2;STATE\n")?;
    show(rt, "header-unended", b"QUARTER;A1;A2;STATE")
}

fn ends(rt: &HostRuntime) -> anyhow::Result<()> {
    let heap = rt.alloc();
    let whole = with_rows(heap, "QUARTER;A1;A2;STATE", ";0,001;0,003;M", "\n")?;
    let text = whole.as_slice();
    if let [cut @ .., _] = text {
        show(rt, "last-feed-missing", cut)?;
    }
    let mut more = with_rows(heap, "QUARTER;A1;A2;STATE", ";0,001;0,003;M", "\n")?;
    more.push(b'\n')?;
    show(rt, "line-98", more.as_slice())?;
    show(rt, "65535-bytes", padded(heap, 65_535)?.as_slice())?;
    show(rt, "65536-bytes", padded(heap, 65_536)?.as_slice())?;
    Ok(())
}

// A valid export of so many bytes: the name of its last, skipped column is filled up.
fn padded(heap: Global, length: usize) -> Result<Vec<u8>, AllocError> {
    let short = with_rows(heap, "QUARTER;A1;A2;STATE;", ";0,001;0,003;M;", "\n")?;
    let mut header = String::from_str(heap, "QUARTER;A1;A2;STATE;")?;
    for _ in short.len()..length {
        header.push('x')?;
    }
    with_rows(heap, header.as_str(), ";0,001;0,003;M;", "\n")
}

pub fn show_all(rt: &HostRuntime) -> anyhow::Result<()> {
    headers(rt)?;
    whole_texts(rt)?;
    ends(rt)
}
