//! The text of a refusal, put into a writer.

ghost use Rattle.std.specs.Prelude.{◌≡◌};
ghost use Rattle.refusals.specs.Texts.{place_number_text, place_number, place_text, place_word, refusal_text, why_text};
ghost use Rattle.text_writer.specs.Texts.{Puts};

use crate::{Place, Refused, Why};
use port_io::Sink;
use text_writer::TextWriter;

impl Refused {
    /// Puts the place, a colon and the reason, as in `line 3: bad byte`.
    pub fn put<K: Sink>(self, out: &mut TextWriter<'_, K>)
        ensures { Puts K.Sink out.old out.new (refusal_text self) }
    {
        put_place(out, self.place);
        out.piece(b": ");
        put_why(out, self.why);
    }
}

// Puts a place: its word and, where it has one, its number.
fn put_place<K: Sink>(out: &mut TextWriter<'_, K>, place: Place)
    ensures { Puts K.Sink out.old out.new (place_text place) }
{
    put_place_word(out, place);
    put_place_number(out, place);
}

// Puts the word for a place.
fn put_place_word<K: Sink>(out: &mut TextWriter<'_, K>, place: Place)
    ensures { Puts K.Sink out.old out.new (place_word place) }
{
    out.text(place.word());
}

// Puts the number of a place behind a space, where it has one.
fn put_place_number<K: Sink>(out: &mut TextWriter<'_, K>, place: Place)
    ensures { Puts K.Sink out.old out.new (place_number_text (place_number place)) }
{
    match place.number() {
        None => {}
        Some(number) => out.number(b' ', number),
    }
}

// Puts the words for a reason.
fn put_why<K: Sink>(out: &mut TextWriter<'_, K>, why: Why)
    ensures { Puts K.Sink out.old out.new (why_text why) }
{
    out.text(why.text());
}
