// Dates written, read, and texts that are no date.
use calendar::{Date, parse_date};
use std::test::Fail;

#[test]
fn written_and_read(rt: HostRuntime) {
    assert_eq!(rt;
        parse_date("2026-06-28"),
        Some(Date {
            year: 2026,
            month: 6,
            day: 28,
        })
    );
    assert_eq!(rt;
        parse_date("2000-02-29"),
        Some(Date {
            year: 2000,
            month: 2,
            day: 29,
        })
    );
}

#[test]
fn written(rt: HostRuntime) -> Result<(), Fail> {
    let date = Date {
        year: 2026,
        month: 6,
        day: 8,
    };
    let text = format!(in rt.alloc(); "{date}")?;
    assert_eq!(rt; text.as_str(), "2026-06-08");
    Ok(())
}

#[test]
fn no_dates(rt: HostRuntime) {
    assert_eq!(rt; parse_date("2026-02-30"), None);
    assert_eq!(rt; parse_date("2099-02-29"), None);
    assert_eq!(rt; parse_date("2026-13-01"), None);
    assert_eq!(rt; parse_date("2100-01-01"), None);
    assert_eq!(rt; parse_date("1999-12-31"), None);
}

#[test]
fn damaged(rt: HostRuntime) {
    assert_eq!(rt; parse_date(""), None);
    assert_eq!(rt; parse_date("2026-06-2"), None);
    assert_eq!(rt; parse_date("2026-06-280"), None);
    assert_eq!(rt; parse_date("2026-O6-28"), None);
    assert_eq!(rt; parse_date("2026/06/28"), None);
    assert_eq!(rt; parse_date("26-06-2026"), None);
    assert_eq!(rt; parse_date("2026-06-2:"), None);
}
