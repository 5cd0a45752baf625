ghost use Rattle.std.specs.Prelude.{◌≡◌, ◌+◌, ◌≤◌, true, length, is_ok, IfOk, vec_len, vec_capacity, OnErr};
ghost use Rattle.session.specs.Sessions.{Replayed};

use crate::desk::Desk;
use crate::turn::Turn;
use bench::{Bench, LookBench, Reply, Slip};
use events::SheetEvent;
use observers::{FarSighted, Observer, Port, Turning};
use sheets::Flow;
use std::alloc::AllocError;

// The numbers of a session's benches, equal or not.
#[derive(Clone, Copy)]
pub struct Numbers {
    pub watch: u16,
    pub plain: u16,
    pub first: u16,
    pub second: u16,
}

// Performs turns in any order at four new benches: one with look over any far-sighted observer, one over any observer,
// and two over flow ports, with one pool of slips. Slips of other benches may be among those brought, so nothing that a
// bench can meet is left out. The replies go into the list that is handed in, and what it held is let go.
//     law        the law of the bench, whole, of everything that was done
//     unharmed   where memory runs out nothing was done, and the slips held are those that were brought
//     succeeds   with room for a reply and a slip to each turn memory does not run out
pub fn replay<
    L: FarSighted + Drop,
    O: Observer + Drop,
    X: Observer<Event = SheetEvent> + Drop,
    Y: Observer<Event = SheetEvent> + Drop,
>(
    numbers: Numbers,
    watch: L,
    plain: O,
    first: X,
    second: Y,
    held: &mut Vec<Slip>,
    turns: Vec<Turn<L::Event, O::Event>>,
    mut replies: Vec<Option<Reply>>,
) -> Result<Vec<Option<Reply>>, AllocError>
where
    L::Event: Drop,
    O::Event: Drop,
    ensures law { IfOk result (λ v. Replayed numbers (L.Observer.rule watch) (O.Observer.rule plain) (X.Observer.rule first) (Y.Observer.rule second) held.old.items turns.items v.items held.new.items) }
    ensures unharmed { OnErr result (held.new.items ≡ held.old.items) }
    ensures succeeds { length turns.items ≤ vec_capacity replies → vec_len held.old + length turns.items ≤ vec_capacity held.old → is_ok result ≡ true }
{
    replies.clear();
    replies.reserve(turns.len())?;
    held.reserve(turns.len())?;
    let mut desk = Desk {
        watch: LookBench::new(numbers.watch, watch),
        plain: Bench::new(numbers.plain, plain),
        first: Bench::new(numbers.first, Port::new(Flow, first)),
        second: Bench::new(numbers.second, Port::new(Flow, second)),
    };
    for turn in turns {
        let reply = desk.turn(held, turn);
        replies.push_reserved(reply);
    }
    Ok(replies)
}
