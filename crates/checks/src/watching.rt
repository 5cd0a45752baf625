use bench::{Calls, LookBench, Refusal, write_off};
use linewatch::{Row, Step, TakeRefusal, take_line};
use notation::LineRefusal;
use numbered::Numbered;
use sheets::Ruler;
use std::test::Fail;

// What a line comes to, or the number of its refusal, which is what a user is told.
fn told(bench: &mut LookBench<Ruler>, row: &mut Row, line: &[u8]) -> Result<Step, u8> {
    take_line(bench, row, line).map_err(|refusal| refusal.number())
}

const LINES: [(&[u8], Result<Step, u8>); 12] = [
    (b"c01", Ok(Step::Struck)),
    (b"c64", Err(21)),
    (
        b"e",
        Ok(Step::RowClosed(Row {
            number: 1,
            cells: 1,
        })),
    ),
    (
        b"p",
        Ok(Step::RowClosed(Row {
            number: 2,
            cells: 0,
        })),
    ),
    (b"", Err(61)),
    (b"c02", Ok(Step::Struck)),
    (b"c03", Ok(Step::Struck)),
    (
        b"p",
        Ok(Step::RowClosed(Row {
            number: 3,
            cells: 2,
        })),
    ),
    (b"c04", Ok(Step::Struck)),
    (b"c05", Ok(Step::Struck)),
    (b"c06", Ok(Step::Lost(9))),
    (b"e", Ok(Step::Lost(9))),
];

#[test]
fn lines_of_two_cells(rt: HostRuntime) -> Result<(), Fail> {
    let mut bench = LookBench::new(1, Ruler::new(2)?);
    let mut row = Row::first();
    assert_eq!(rt; told(&mut bench, &mut row, b"e"), Err(32));
    write_off(bench.open()?);
    for (line, expected) in LINES {
        assert_eq!(rt; told(&mut bench, &mut row, line), expected);
    }
    assert_eq!(rt; row.number, 4);
    Ok(())
}

const TAKE_WORDS: [(TakeRefusal, &str); 5] = [
    (
        TakeRefusal::Line(LineRefusal::CellOver63),
        "no cell is over 63",
    ),
    (TakeRefusal::Line(LineRefusal::KindUnknown), "no such kind"),
    (
        TakeRefusal::Line(LineRefusal::BitNotZero),
        "a bit is not zero",
    ),
    (
        TakeRefusal::Line(LineRefusal::NotAnEvent),
        "this is no event",
    ),
    (
        TakeRefusal::Bench(Refusal::RunFull),
        "the run takes no more events",
    ),
];

#[test]
fn what_is_not_taken_in_words(rt: HostRuntime) -> Result<(), Fail> {
    for (refusal, expected) in TAKE_WORDS {
        assert_eq!(rt; format!(in rt.alloc(); "{refusal}")?.as_str(), expected);
    }
    Ok(())
}
