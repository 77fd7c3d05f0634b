// Life files read line by line, and the lines of their answers.
#![tactic(auto)]

use ledger::fault::BookFault;
use ledger::life::Answer;
use ledger::records::{Month, Outcome};
use lifefile::flaw::Flaw;
use lifefile::line::Note;
use lifefile::making::{Made, ring_of};
use lifefile::refused::{Reply, write_refused};
use lifefile::script::{At, Exports, Script, read_script};
use lifefile::words::{day, direction, number, quarter};
use metering::fault::Fault;
use refusals::{Layer, Refusal};
use rulebooks::RuleFault;
use std::alloc::Global;
use std::test::Fail;
use stores::fault::StoreFault;

#[test]
fn words(rt: HostRuntime) {
    assert_eq!(rt; number("4294967295"), Ok(4_294_967_295));
    assert_eq!(rt; number("000000000000042"), Ok(42));
    for word in ["4294967296", "", "-1", "+1", "1 ", "1_0"] {
        assert_eq!(rt; number(word), Err(Flaw::Number));
    }
    assert_eq!(rt; day("2026-06-28"), Ok(9675));
    assert_eq!(rt; day("36525"), Ok(36_525));
    assert_eq!(rt; day("2026-06-31"), Err(Flaw::Day));
    assert_eq!(rt; quarter("11:00"), Ok(44));
    assert_eq!(rt; quarter("24:00"), Ok(96));
    assert_eq!(rt; quarter("97"), Ok(97));
    for word in ["24:15", "1:00", "11:10", "11:60"] {
        assert_eq!(rt; quarter(word), Err(Flaw::Quarter));
    }
    assert_eq!(rt; direction("down"), Ok(1));
    assert_eq!(rt; direction("Up"), Err(Flaw::Direction));
}

// No export can be read.
#[derive(Drop)]
struct Nothing;

impl Exports for Nothing {
    fn text_of(&self, _file: &str) -> Result<Vec<u8>, Flaw> {
        Err(Flaw::Unreadable)
    }
}

fn script_of(heap: Global, text: &str) -> Script {
    read_script(heap, &Nothing, text)
}

#[test]
fn whole_file(rt: HostRuntime) {
    let script = script_of(
        rt.alloc(),
        "# a life\nstore ring 1 2\n\nterms 1 8 96 1 0 0\nterms 8 8 96 1 0 0\ncurve 0 1 E -4*95\ncurve 0 1 5*4000000000\nsettle 7\n",
    );
    assert!(rt; script.flaw.is_none() && script.keep.is_none());
    assert!(rt; script.fillings.len() == 2);
    assert!(rt; script.fillings[0].what.is_ok() && script.fillings[1].what.is_err());
    assert_eq!(rt; script.calls.len(), 2);
    assert!(rt; script.steps.len() == 3);
    assert_eq!(rt; script.steps[2].line, 8);
}

#[test]
fn flaws(rt: HostRuntime) -> Result<(), Fail> {
    for (text, line, flaw) in [
        ("store ring 1 2\nkeep 3\nkeep 3\n", 3, Flaw::Sequence),
        ("\nterms 1 8 96 1 0 0\n", 2, Flaw::Sequence),
        ("store ring 1  2\n", 1, Flaw::Spaces),
        ("store ring 1\n", 1, Flaw::Count),
        ("store heap 1 2\n", 1, Flaw::Unknown),
        (
            "store ring 1 2\nterms 1 8 96 1 0 0\nenter 0 1 x\n",
            3,
            Flaw::Unreadable,
        ),
        (
            "store ring 1 2\nterms 1 8 96 1 0 0\ncurve 0 1 +4*96\n",
            3,
            Flaw::Value,
        ),
    ] {
        let found = script_of(rt.alloc(), text).flaw;
        let Some(At { line: at, what }) = found else {
            return Err(Fail::new("no flaw is found"));
        };
        assert_eq!(rt; at, line);
        assert_eq!(rt; what, flaw);
    }
    Ok(())
}

// The sheet of a resource with one history day, and of an estimated one.
fn sheet() -> [i32; 608] {
    let mut words = [0; 608];
    words[0] = 1;
    words[1] = 1;
    words[2] = 9676;
    words[17] = -17_600;
    words[18] = -240_000;
    words
}

#[test]
fn settled(rt: HostRuntime) -> Result<(), Fail> {
    let mut out = String::new(rt.alloc());
    let outcome = Outcome {
        sum: -7,
        pta: 0,
        eda: 8000,
        seta: 0,
        paid: 0,
        pay: 0,
    };
    let answer = Answer::Settled {
        outcome,
        sheet: sheet(),
    };
    let mut reply = Reply {
        out: &mut out,
        line: 10,
    };
    reply.answer(Note::Order(3), 2, &answer)?;
    assert_eq!(rt;
        out.as_str(),
        "10 ok settle 3 sum -7 pTa 0 EDa 8000 SETa 0 paid 0 pay 0\n10 evidence 0 days 1 2026-06-29 C -17600 L -240000\n10 evidence 1 estimated\n"
    );
    Ok(())
}

#[test]
fn month(rt: HostRuntime) -> Result<(), Fail> {
    let mut out = String::new(rt.alloc());
    let figures = Month {
        av: 672,
        di: 660,
        edm: 8000,
        ptm: 7200,
        setm: 7200,
        dpm: 9005,
        apm: 1650,
        upm: 144,
        pay: 1794,
    };
    let mut reply = Reply {
        out: &mut out,
        line: 51,
    };
    reply.answer(Note::Plain, 1, &Answer::Month(figures))?;
    assert_eq!(rt;
        out.as_str(),
        "51 ok month AV 672 DI 660 EDm 8000 pTm 7200 SETm 7200 DPm 90,05 APm 1650 UPm 144 pay 1794\n"
    );
    Ok(())
}

// A refusal alone is told in the same line as the fault that it came from; one that no book raises is told too.
#[test]
fn refused(rt: HostRuntime) -> Result<(), Fail> {
    for (fault, line) in [
        (
            BookFault::ShortHistory {
                resource: 0,
                found: 12,
            },
            "7 refused 23 book 0 12 only 12 of the history days that the choice of resource 0 needs are held: a matter for the settler\n",
        ),
        (
            BookFault::Store(StoreFault::Resource {
                resource: 5,
                day: 9,
            }),
            "7 refused 10 store 5 9 the store is too narrow for resource 5: a matter for the meter operator\n",
        ),
        (
            BookFault::NotRegistered {
                resource: 5,
                day: 9,
            },
            "7 refused 10 book 5 9 no resource 5 is registered: a matter for the meter operator\n",
        ),
        (
            BookFault::Rule {
                resource: 2,
                quarter: 44,
                fault: RuleFault::NoBaseline,
            },
            "7 refused 24 rulebook 2 44 the rule of resource 2 gives no baseline for quarter 44: a matter for the settler\n",
        ),
    ] {
        let mut out = String::new(rt.alloc());
        write_refused(&mut out, 7, fault.refusal())?;
        assert_eq!(rt; out.as_str(), line);
        let mut reply = Reply {
            out: &mut out,
            line: 7,
        };
        reply.refused(fault)?;
        assert_eq!(rt; out.as_str(), [line, line].concat(rt.alloc())?.as_str());
    }
    let mut out = String::new(rt.alloc());
    write_refused(&mut out, 3, Refusal::new(7, Layer::Import, 0, 0))?;
    assert_eq!(rt;
        out.as_str(),
        "3 refused 7 import 0 0 this cannot be granted: a matter for the meter operator\n"
    );
    Ok(())
}

#[test]
fn made_filled_unformed(rt: HostRuntime) -> Result<(), Fail> {
    let mut out = String::new(rt.alloc());
    let mut reply = Reply {
        out: &mut out,
        line: 4,
    };
    let Made { store, fits } = ring_of(rt.alloc(), 2, 60, None)?;
    reply.made("store", fits, &store)?;
    reply.filled(Ok(()))?;
    reply.unformed(Fault::Lists)?;
    assert_eq!(rt;
        out.as_str(),
        "4 ok store width 2 capacity 120 span 60\n4 ok terms\n4 refused 7 import 0 0 the values do not come to 96, or one is beyond 1000000 Wh either way: a matter for the meter operator\n"
    );
    Ok(())
}
