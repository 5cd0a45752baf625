use events::{Cell, Kind, MachineEvent, SheetEvent};
use std::test::Fail;

// The name of every cell from 0 to 63 by its first letter: a table where the code has cases, made from the same list of cells.
const CHART: &[u8; 64] = b"sdodooooodddooooododooooodddoooocooooooooooooooooooooooooooonooo";

// The first letters of the names of cells, in the order of the names' numbers.
const LETTERS: &[u8; 5] = b"cndso";

#[test]
fn every_cell_has_the_name_of_the_chart(rt: HostRuntime) -> Result<(), Fail> {
    for (dots, letter) in (0..64).zip(CHART) {
        let name = SheetEvent::Struck(Cell::new(dots)?).name();
        assert_eq!(rt;
            LETTERS.iter().position(|first| first == letter),
            Some(usize::from(name))
        );
    }
    assert_eq!(rt; SheetEvent::LineEnd.name(), 5);
    assert_eq!(rt; SheetEvent::SheetEnd.name(), 6);
    Ok(())
}

#[test]
fn labels_go_by_number(rt: HostRuntime) {
    assert_eq!(rt; SheetEvent::label(0), Some("cap"));
    assert_eq!(rt; SheetEvent::label(4), Some("oth"));
    assert_eq!(rt; SheetEvent::label(7), None);
    assert_eq!(rt; MachineEvent::label(4), Some("cover"));
    assert_eq!(rt; MachineEvent::label(5), None);
    assert_eq!(rt; SheetEvent::total(), 7);
    assert_eq!(rt; MachineEvent::total(), 5);
}
