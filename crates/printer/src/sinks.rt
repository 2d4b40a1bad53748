// What the printer sends a text to.
ghost use Rattle.printer.specs.Sinks.{Puts};

use formula::Sink;

// A buffer, and the place in it where the next byte goes. With `get_mut` in `put` the proof does not close.
#[derive(Drop)]
pub struct Buffer<'a> {
    pub out: &'a mut [u8],
    pub at: usize,
}

impl Sink for Buffer<'_> {
    ghost put_gives = { Puts };

    fn put(&mut self, byte: u8) {
        if self.at < self.out.len() {
            self.out[self.at] = byte;
            self.at += 1;
        }
    }
}
