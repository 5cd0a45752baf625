use events::SheetEvent;

// What is done at a bench. A close names a slip by its place among those held.
#[derive(Clone, Copy)]
pub enum Act<E> {
    Open,
    Take(E),
    Ask,
    Close(usize),
}

// An act at one of four benches: the one with look, a plain one, and two over flow ports, which are cases of their own, since their observers may
// differ in type.
#[derive(Clone, Copy)]
pub enum Turn<E, F> {
    Watch(Act<E>),
    Look,
    Plain(Act<F>),
    First(Act<SheetEvent>),
    Second(Act<SheetEvent>),
}
