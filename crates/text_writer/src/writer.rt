//! A writer of texts over a sink.

ghost use Rattle.std.specs.Prelude.{◌≡◌, [], ◌++◌};
ghost use Rattle.text_writer.specs.Numbers.{with_mark, item};
ghost use Rattle.text_writer.specs.Texts.{HasPut, Puts, Finishes};

use crate::digits::{LONGEST, put_digits};
use crate::held::Held;
use crate::progress::Progress;
use port_io::{Sink, WriteFault};

/// Takes the pieces of a long text on their way to a sink, and gathers them, so that the sink is not called for each of
/// them. Once a call of the sink has failed, no call is made any more, and `finish` tells the fault. It takes no
/// memory.
pub struct TextWriter<'a, K: Sink> {
    out: &'a mut K,
    progress: Progress,
    held: Held,
}

impl<'a, K: Sink> TextWriter<'a, K> {
    /// A writer over this sink.
    pub fn new(out: &'a mut K) -> TextWriter<'a, K>
        ensures same_sink { result.out.ghost_name ≡ out.entry.ghost_name }
        ensures nothing { HasPut K.Sink out.old result [] }
    {
        TextWriter {
            out,
            progress: Progress::nothing(),
            held: Held::new(),
        }
    }

    /// Puts a piece of the text.
    pub fn piece(&mut self, piece: &[u8])
        ensures { Puts K.Sink self.old self.new piece.now }
    {
        if self.held.hold(piece) {
            return;
        }
        self.progress.give(self.out, self.held.as_slice());
        self.held.clear();
        if !self.held.hold(piece) {
            self.progress.give(self.out, piece);
        }
    }

    /// Puts a text.
    pub fn text(&mut self, text: &str)
        ensures { Puts K.Sink self.old self.new text.now }
    {
        self.piece(text.as_bytes());
    }

    /// Puts a mark and a number.
    pub fn number(&mut self, mark: u8, number: u64)
        ensures { Puts K.Sink self.old self.new (with_mark mark number) }
    {
        let mut place = [0u8; LONGEST];
        let start = put_digits(mark, number, &mut place);
        self.piece(&place[start..]);
    }

    /// Puts the item `key=value` behind a space.
    pub fn item(&mut self, key: usize, value: u64)
        ensures { Puts K.Sink self.old self.new (item key value) }
    {
        self.number(b' ', key as u64);
        self.number(b'=', value);
    }

    /// Gives the sink all that is still held, and does not flush it. An error tells how many bytes the sink took.
    pub fn finish(self) -> Result<(), WriteFault>
        ensures { Finishes K.Sink self.entry self.exit.0.now result }
    {
        let TextWriter {
            out,
            mut progress,
            held,
        } = self;
        progress.give(out, held.as_slice());
        progress.outcome()
    }
}
