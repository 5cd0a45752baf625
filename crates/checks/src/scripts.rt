use bench::{Refusal, Reply, Report, Sight, write_off_all};
use events::EventRefusal;
use observers::Port;
use script::{BadLine, ScriptError, TurnRefusal, read_script, refusal_words, reply_words};
use session::{Numbers, replay};
use sheets::{Hammer, Ruler};
use std::test::Fail;

// The last line lacks its line feed.
const SCRIPT: &[u8] = b"ruler open
ruler take c01
ruler take e
ruler look
hammer open
hammer take 00000001
hammer ask
first open
first take p
first close 2
hammer close 1
second ask
ruler take c01
ruler take c02
ruler take c03
ruler look
ruler ask
ruler close 7
ruler close 0";

const REPLIES: [&str; 19] = [
    "opened bench 1 run 1",
    "taken",
    "taken",
    "open",
    "opened bench 2 run 1",
    "taken",
    "kept, 1 events",
    "opened bench 3 run 1",
    "taken",
    "closed: kept, 1 events",
    "closed: kept, 1 events",
    "refused 32: no run is open",
    "taken",
    "taken",
    "taken",
    "lost after 5 events",
    "not kept, 5 events",
    "no slip at that place",
    "closed: not kept, 5 events",
];

const NUMBERS: Numbers = Numbers {
    watch: 1,
    plain: 2,
    first: 3,
    second: 4,
};

#[test]
fn a_script_is_read_and_replayed(rt: HostRuntime) -> Result<(), Fail> {
    let heap = rt.alloc();
    let ruler = Ruler::new(2)?;
    let Ok(turns) = read_script(heap, SCRIPT) else {
        return Err(Fail::new("a line of the script is no turn"));
    };
    let hammer = Port::new(Hammer, ruler);
    let mut held = Vec::new(heap);
    let done = replay(
        NUMBERS,
        ruler,
        hammer,
        ruler,
        ruler,
        &mut held,
        turns,
        Vec::new(heap),
    );
    write_off_all(held);
    let replies = done?;
    assert_eq!(rt; replies.len(), REPLIES.len());
    for (reply, expected) in replies.iter().zip(REPLIES) {
        assert_eq!(rt; reply_words(heap, *reply)?.as_str(), expected);
    }
    Ok(())
}

#[test]
fn the_first_line_that_is_no_turn_is_told(rt: HostRuntime) -> Result<(), Fail> {
    let Err(error) = read_script(rt.alloc(), b"ruler open\nruler take c64\n\n") else {
        return Err(Fail::new("a cell over 63 was read"));
    };
    let bad = BadLine {
        number: 2,
        refusal: TurnRefusal::Event(EventRefusal::CellOver63),
    };
    assert_eq!(rt; error, ScriptError::Line(bad));
    Ok(())
}

const KEPT: Report = Report {
    mark: true,
    count: 3,
};

const NOT_KEPT: Report = Report {
    mark: false,
    count: 1_000_000,
};

const REPLY_WORDS: [(Option<Reply>, &str); 14] = [
    (None, "no slip at that place"),
    (Some(Reply::Opened(65_535, 1)), "opened bench 65535 run 1"),
    (Some(Reply::Taken), "taken"),
    (Some(Reply::Told(KEPT)), "kept, 3 events"),
    (Some(Reply::Told(NOT_KEPT)), "not kept, 1000000 events"),
    (Some(Reply::Looked(Sight::Open)), "open"),
    (Some(Reply::Looked(Sight::Lost(4))), "lost after 4 events"),
    (Some(Reply::Looked(Sight::Safe(0))), "safe after 0 events"),
    (Some(Reply::Closed(KEPT)), "closed: kept, 3 events"),
    (
        Some(Reply::Closed(NOT_KEPT)),
        "closed: not kept, 1000000 events",
    ),
    (
        Some(Reply::Refused(Refusal::RunsSpent)),
        "refused 31: no run number is left",
    ),
    (
        Some(Reply::Refused(Refusal::NoRunOpen)),
        "refused 32: no run is open",
    ),
    (
        Some(Reply::Refused(Refusal::RunFull)),
        "refused 33: the run is full",
    ),
    (
        Some(Reply::Refused(Refusal::SlipNotOfRun)),
        "refused 34: the slip is not of the open run",
    ),
];

#[test]
fn replies_in_words(rt: HostRuntime) -> Result<(), Fail> {
    for (reply, expected) in REPLY_WORDS {
        assert_eq!(rt; reply_words(rt.alloc(), reply)?.as_str(), expected);
    }
    Ok(())
}

const REFUSAL_WORDS: [(usize, TurnRefusal, &str); 4] = [
    (3, TurnRefusal::NotATurn, "line 3 is no turn"),
    (
        12,
        TurnRefusal::Event(EventRefusal::CellOver63),
        "line 12 is no turn: refused 21",
    ),
    (
        1,
        TurnRefusal::Event(EventRefusal::KindUnknown),
        "line 1 is no turn: refused 22",
    ),
    (
        400,
        TurnRefusal::Event(EventRefusal::BitNotZero),
        "line 400 is no turn: refused 23",
    ),
];

#[test]
fn refused_lines_in_words(rt: HostRuntime) -> Result<(), Fail> {
    for (line, refusal, expected) in REFUSAL_WORDS {
        assert_eq!(rt;
            refusal_words(rt.alloc(), line, refusal)?.as_str(),
            expected
        );
    }
    Ok(())
}
