//! The lines about a made model and its form, put into a writer.

ghost use Rattle.std.specs.Prelude.{◌≡◌, ℕ, ◌+◌, ◌++◌, codes, length};
ghost use Rattle.answer_texts.specs.MadeTexts.{system_line, tail_sizes, made_text};
ghost use Rattle.text_writer.specs.Texts.{Puts};

use crate::report_lines::put_count;
use cert_text::{Ccf, CcfPart};
use port_io::Sink;
use residue_field::Field;
use text_writer::TextWriter;

/// Puts the whole text about a made model of so many equations and as many unknowns: these numbers and that of its
/// split equations; then of its form the rank, the number of blocks, and the numbers of rows and of columns of the two
/// tails. (Murota, chapter 4.)
pub fn put_made<F: Field, K: Sink>(
    out: &mut TextWriter<'_, K>,
    size: usize,
    split: usize,
    ccf: &Ccf<F>,
)
    ensures { Puts K.Sink out.old out.new (made_text size split ccf.now) }
{
    put_count(out, b"make", size);
    put_system(out, size, split);
    put_count(out, b"rank", ccf.rank());
    put_tail(out, b"first", ccf.first());
    put_count(out, b"blocks", ccf.blocks().as_slice().len());
    put_tail(out, b"last", ccf.last());
}

// Puts the line of the numbers of equations and of unknowns, which are one, and of split equations.
fn put_system<K: Sink>(out: &mut TextWriter<'_, K>, size: usize, split: usize)
    ensures { Puts K.Sink out.old out.new (system_line size split) }
{
    out.piece(b"equations");
    out.number(b' ', size as u64);
    out.piece(b" unknowns");
    out.number(b' ', size as u64);
    out.piece(b" split");
    out.number(b' ', split as u64);
    out.piece(b"\n");
}

// Puts the line of the numbers of rows and of columns of a tail behind a word.
fn put_tail<K: Sink>(out: &mut TextWriter<'_, K>, word: &[u8], part: &CcfPart)
    ensures { Puts K.Sink out.old out.new (tail_sizes word.now part.now) }
{
    let rows = part.q_rows.as_slice().len() + part.t_rows.as_slice().len();
    out.piece(word);
    out.number(b' ', rows as u64);
    out.number(b' ', part.columns.as_slice().len() as u64);
    out.piece(b"\n");
}
