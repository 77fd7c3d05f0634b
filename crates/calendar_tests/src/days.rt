// The first and last days, the ends of February, and what lies outside.
use calendar::{Date, DayKind, date_of, day_of, first_day, is_day, last_day, weekday_kind};

fn on(year: u32, month: u32, day: u32) -> Date {
    Date { year, month, day }
}

#[test]
fn ends_of_the_range(rt: HostRuntime) {
    assert!(rt; is_day(0) && is_day(36_524) && !is_day(36_525) && !is_day(u32::MAX));
    assert_eq!(rt; date_of(0), Some(on(2000, 1, 1)));
    assert_eq!(rt; date_of(36_524), Some(on(2099, 12, 31)));
    assert_eq!(rt; date_of(36_525), None);
    assert_eq!(rt; date_of(u32::MAX), None);
    assert_eq!(rt; day_of(on(2099, 12, 31)), Some(36_524));
    assert_eq!(rt; day_of(on(2100, 1, 1)), None);
    assert_eq!(rt; day_of(on(1999, 12, 31)), None);
}

#[test]
fn dates_that_do_not_exist(rt: HostRuntime) {
    assert_eq!(rt; day_of(on(2099, 2, 29)), None);
    assert_eq!(rt; day_of(on(2026, 6, 31)), None);
    assert_eq!(rt; day_of(on(2026, 6, 0)), None);
    assert_eq!(rt; day_of(on(2026, 0, 1)), None);
    assert_eq!(rt; day_of(on(2026, 13, 1)), None);
    assert_eq!(rt; day_of(on(u32::MAX, u32::MAX, u32::MAX)), None);
}

#[test]
fn february(rt: HostRuntime) {
    assert_eq!(rt; day_of(on(2000, 2, 29)), Some(59));
    assert_eq!(rt; date_of(59), Some(on(2000, 2, 29)));
    assert_eq!(rt; date_of(60), Some(on(2000, 3, 1)));
    assert_eq!(rt; last_day(2000, 2), Some(59));
    assert_eq!(rt; last_day(2001, 2), Some(424));
    assert_eq!(rt; first_day(2001, 3), Some(425));
}

#[test]
fn june_2026(rt: HostRuntime) {
    assert_eq!(rt; day_of(on(2026, 6, 28)), Some(9675));
    assert_eq!(rt; date_of(9649), Some(on(2026, 6, 2)));
    assert_eq!(rt; first_day(2026, 6), Some(9648));
    assert_eq!(rt; last_day(2026, 6), Some(9677));
    assert_eq!(rt; weekday_kind(9675), DayKind::Sunday);
    assert_eq!(rt; weekday_kind(9674), DayKind::Saturday);
    assert_eq!(rt; weekday_kind(9649), DayKind::Working);
}

#[test]
fn months_outside(rt: HostRuntime) {
    assert_eq!(rt; first_day(2026, 0), None);
    assert_eq!(rt; last_day(2026, 13), None);
    assert_eq!(rt; first_day(1999, 12), None);
    assert_eq!(rt; last_day(2100, 1), None);
    assert_eq!(rt; first_day(2000, 1), Some(0));
    assert_eq!(rt; last_day(2099, 12), Some(36_524));
}

#[test]
fn weekdays_past_the_range(rt: HostRuntime) {
    assert_eq!(rt; weekday_kind(0), DayKind::Saturday);
    assert_eq!(rt; weekday_kind(1), DayKind::Sunday);
    assert_eq!(rt; weekday_kind(6), DayKind::Working);
    assert_eq!(rt; weekday_kind(u32::MAX), DayKind::Working);
}
