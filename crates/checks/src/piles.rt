use bench::{Bench, Calls, LookBench, Refusal, Report, Sight, Slip, write_off};
use events::{Cell, MachineEvent, SheetEvent};
use numbered::Numbered;
use observers::{Both, Complement, Port};
use sheets::{Flow, Hammer, Ruler};
use std::test::Fail;

// Runs as text: a letter for each event, `e` a line end, `p` a sheet end, anything else a cell.
const RUNS: [&[u8]; 14] = [
    b"",
    b"c",
    b"cc",
    b"ccc",
    b"cccc",
    b"cecce",
    b"cccee",
    b"ccpcc",
    b"cccpccce",
    b"ccceccccp",
    b"epepep",
    b"ccccc",
    b"eccccpe",
    b"ccecceccecce",
];

fn event(letter: u8) -> SheetEvent {
    match letter {
        b'e' => SheetEvent::LineEnd,
        b'p' => SheetEvent::SheetEnd,
        _ => SheetEvent::Struck(Cell::blank()),
    }
}

// The most cells that stand in a row.
fn longest(run: &[u8]) -> usize {
    run.split(|letter| matches!(letter, b'e' | b'p'))
        .map(|row| row.len())
        .max()
        .unwrap_or(0)
}

// How many cells the flow of a run has: every letter but a sheet end.
fn flow_cells(run: &[u8]) -> usize {
    run.iter().filter(|letter| **letter != b'p').count()
}

fn take_run<B: Calls<Event = SheetEvent>>(bench: &mut B, run: &[u8]) -> Result<(), Refusal> {
    for letter in run {
        bench.take(event(*letter))?;
    }
    Ok(())
}

fn close<B: Calls>(bench: &mut B, slip: Slip) -> Result<Report, Refusal> {
    bench.close(slip).map_err(|(slip, refusal)| {
        write_off(slip);
        refusal
    })
}

// What a bench of any observer tells of a run, by close.
fn told<B: Calls<Event = SheetEvent>>(bench: &mut B, run: &[u8]) -> Result<Report, Refusal> {
    let slip = bench.open()?;
    take_run(bench, run).and(close(bench, slip))
}

#[test]
fn a_pile_of_three_layers_over_two_rulers(rt: HostRuntime) -> Result<(), Fail> {
    let below = Port::new(Flow, Both::new(Ruler::new(4)?, Ruler::new(3)?));
    let mut bench = Bench::new(7, Complement::new(below));
    for run in RUNS {
        let mark = flow_cells(run) > 3;
        let count = u32::try_from(run.len())?;
        assert_eq!(rt; told(&mut bench, run), Ok(Report { mark, count }));
    }
    Ok(())
}

#[test]
fn the_ruler_and_its_complement_with_look(rt: HostRuntime) -> Result<(), Fail> {
    let mut bench = LookBench::new(1, Ruler::new(3)?);
    let mut other = LookBench::new(2, Complement::new(Ruler::new(3)?));
    for run in RUNS {
        let mark = longest(run) <= 3;
        let count = u32::try_from(run.len())?;
        assert_eq!(rt; told(&mut bench, run), Ok(Report { mark, count }));
        assert_eq!(rt; told(&mut other, run), Ok(Report { mark: !mark, count }));
    }
    Ok(())
}

// The length of the shortest beginning of the run that has a row over the width.
fn lost_at(run: &[u8], width: usize) -> Option<usize> {
    (1..=run.len()).find(|end| longest(&run[..*end]) > width)
}

#[test]
fn looks_tell_the_first_count(rt: HostRuntime) -> Result<(), Fail> {
    let mut bench = LookBench::new(1, Ruler::new(3)?);
    for run in RUNS {
        let expected = match lost_at(run, 3) {
            Some(count) => Sight::Lost(u32::try_from(count)?),
            None => Sight::Open,
        };
        assert_eq!(rt; bench.look(), Err(Refusal::NoRunOpen));
        let slip = bench.open()?;
        let took = take_run(&mut bench, run);
        assert_eq!(rt; bench.look(), Ok(expected));
        took.and(close(&mut bench, slip))?;
    }
    Ok(())
}

// Takes each word's event; the mark after each must be the one beside it.
fn take_words<B: Calls<Event = MachineEvent>>(
    bench: &mut B,
    words: &[(u32, bool)],
) -> Result<(), Fail> {
    for (word, mark) in words {
        bench.take(MachineEvent::new(*word)?)?;
        if bench.ask()?.mark != *mark {
            return Err(Fail::new("another mark was told"));
        }
    }
    Ok(())
}

// Strikes, feeds and others, as words, and whether two cells in a row fit.
#[test]
fn a_hammer_port_over_a_ruler(rt: HostRuntime) -> Result<(), Fail> {
    let words: [(u32, bool); 8] = [
        (0x0000_0001, true),
        (0x4000_0005, true),
        (0x0000_0003, true),
        (0x2000_0000, true),
        (0x0000_003f, true),
        (0x8000_0000, true),
        (0x0000_0000, true),
        (0x0000_0002, false),
    ];
    let mut bench = Bench::new(65_535, Port::new(Hammer, Ruler::new(2)?));
    assert_eq!(rt; bench.ask(), Err(Refusal::NoRunOpen));
    let slip = bench.open()?;
    let took = take_words(&mut bench, &words);
    let closed = close(&mut bench, slip);
    took?;
    assert_eq!(rt;
        closed,
        Ok(Report {
            mark: false,
            count: 8,
        })
    );
    Ok(())
}

#[test]
fn a_bench_opens_65535_runs(rt: HostRuntime) -> Result<(), Fail> {
    let mut bench = Bench::new(0, Ruler::new(1)?);
    for _ in 0..65_535 {
        write_off(bench.open()?);
    }
    for _ in 0..5 {
        let opened = bench.open().map(write_off);
        assert_eq!(rt; opened.map_err(|refusal| refusal.number()), Err(31));
    }
    Ok(())
}

#[test]
fn a_run_takes_a_million_events(rt: HostRuntime) -> Result<(), Fail> {
    let mut bench = Bench::new(0, Ruler::new(1)?);
    assert_eq!(rt; bench.take(SheetEvent::LineEnd), Err(Refusal::NoRunOpen));
    write_off(bench.open()?);
    for _ in 0..1_000_000 {
        bench.take(SheetEvent::LineEnd)?;
    }
    for _ in 0..3 {
        let took = bench.take(SheetEvent::LineEnd);
        assert_eq!(rt; took.map_err(|refusal| refusal.number()), Err(33));
    }
    assert_eq!(rt;
        bench.ask(),
        Ok(Report {
            mark: true,
            count: 1_000_000,
        })
    );
    Ok(())
}
