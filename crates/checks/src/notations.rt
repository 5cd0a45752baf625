use events::{MachineEvent, SheetEvent};
use notation::Notation;
use numbered::Numbered;

// A line, and whether an event is read from it or with which number, as a user is told, it is refused.
type Reading = (&'static [u8], Result<(), u8>);

const SHEET: [Reading; 16] = [
    (b"c00", Ok(())),
    (b"c63", Ok(())),
    (b"e", Ok(())),
    (b"p", Ok(())),
    (b"c64", Err(21)),
    (b"c99", Err(21)),
    (b"", Err(61)),
    (b"c", Err(61)),
    (b"c1", Err(61)),
    (b"c001", Err(61)),
    (b"C00", Err(61)),
    (b"c 1", Err(61)),
    (b"E", Err(61)),
    (b"ee", Err(61)),
    (b"e\r", Err(61)),
    (b"c\x000", Err(61)),
];

const MACHINE: [Reading; 16] = [
    (b"0000003f", Ok(())),
    (b"20000001", Ok(())),
    (b"40000000", Ok(())),
    (b"5fffffff", Ok(())),
    (b"7fffffff", Ok(())),
    (b"9fffffff", Ok(())),
    (b"a0000000", Err(22)),
    (b"ffffffff", Err(22)),
    (b"00000040", Err(23)),
    (b"20000002", Err(23)),
    (b"30000000", Err(23)),
    (b"0000003F", Err(61)),
    (b"0000000", Err(61)),
    (b"000000000", Err(61)),
    (b"g0000000", Err(61)),
    (b"", Err(61)),
];

fn told<E: Notation>(line: &[u8]) -> Result<(), u8> {
    E::read(line)
        .map(|_| ())
        .map_err(|refusal| refusal.number())
}

#[test]
fn sheet_lines(rt: HostRuntime) {
    for (line, expected) in SHEET {
        assert_eq!(rt; told::<SheetEvent>(line), expected);
    }
}

#[test]
fn machine_lines(rt: HostRuntime) {
    for (line, expected) in MACHINE {
        assert_eq!(rt; told::<MachineEvent>(line), expected);
    }
}
