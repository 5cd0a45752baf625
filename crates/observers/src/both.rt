ghost use Rattle.std.specs.Prelude.{◌≡◌, ◌&&◌};

use crate::observer::Observer;

// Keeps the runs that both observers keep.
#[derive(Drop)]
pub struct Both<X, Y> {
    left: X,
    right: Y,
}

impl<X, Y> Both<X, Y> {
    pub fn new(left: X, right: Y) -> Both<X, Y>
        ensures left { result.left ≡ left }
        ensures right { result.right ≡ right }
    {
        Both { left, right }
    }
}

impl<E: Copy, X: Observer<Event = E>, Y: Observer<Event = E>> Observer for Both<X, Y> {
    type Event = E;

    ghost rule = { λ s t. X.Observer.rule s.left t && Y.Observer.rule s.right t };

    ghost rest = { λ s t. X.Observer.rest s.left t && Y.Observer.rest s.right t };

    fn take(&mut self, e: E) {
        self.left.take(e);
        self.right.take(e);
    }

    fn mark(&self) -> bool {
        self.left.mark() && self.right.mark()
    }

    fn restart(&mut self) {
        self.left.restart();
        self.right.restart();
    }
}
