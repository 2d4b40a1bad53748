// The bytes of a text, counted.
ghost use Rattle.formula.specs.Counts.{CountsOne};

use crate::text::Sink;

// What is left of a room, where it had a place for every byte that came.
#[derive(Clone, Copy)]
pub struct Count {
    pub left: Option<usize>,
}

impl Sink for Count {
    ghost put_gives = { CountsOne };

    fn put(&mut self, _byte: u8) {
        self.left = self.left.and_then(|left| left.checked_sub(1));
    }

    fn is_closed(&self) -> bool {
        self.left.is_none()
    }
}
