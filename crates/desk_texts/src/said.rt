//! What a desk prints of a text of commands.

ghost use Rattle.std.specs.Prelude.{◌≡◌, ◌<◌, ◌∷◌, ℕ, [], List, length, IfOk, OnOk, IfSome, MatchOption};
ghost use Rattle.desk_texts.specs.Puttings.{PutsReply, PutsSaid};
ghost use Rattle.desk_texts.specs.Said.{IsReplyText, IsSaidOf};
ghost use Rattle.edit_desk.specs.Desks.{IsAsked, IsReply, desk_limit, empty_models};
ghost use Rattle.edit_desk.specs.declared.reply.Reply.TheVariants.{Parts as Told};
ghost use Rattle.line_lexer.specs.Lines.{lines_of};
ghost use Rattle.mixed_model.specs.Models.{MixedModel};
ghost use Rattle.port_io.specs.Bytes.{Appended};
ghost use Rattle.text_writer.specs.Texts.{Puts};

use crate::gathering::Gathering;
use crate::reply_lines::{put_number, put_parts, put_refused};
use ccf_builder::Parts;
use edit_desk::{DESK_LIMIT, Desk, NoMemory, Reply};
use exchange_graph::Steps;
use line_lexer::{first_line_feed, without_return};
use model_edits::read_order;
use port_io::Sink;
use residue_field::Field;
use row_transform::Tableau;
use std::alloc::Global;
use std::marker::Brand;
use std::sync::ledger::{Blank, Ledger};
use text_writer::TextWriter;

/// What a desk of 16 models, each of them empty at first, prints of a text: its reply to each line, one after another.
/// `edit_desk::Desk::command` tells what a line may say. There is an error only where memory runs out.
pub fn say<F: Field, T: Tableau<F>>(alloc: Global, input: &[u8]) -> Result<Vec<u8>, NoMemory>
    ensures { IfOk result (λ text. IsSaidOf F.modulus input.now text.items) }
{
    let mut said = Gathering::new(alloc);
    write_said::<F, T, Gathering>(alloc, &mut said, input)?;
    Ok(said.into_bytes())
}

// Writes the replies to the lines of a text.
fn write_said<F: Field, T: Tableau<F>, K: Sink>(
    alloc: Global,
    sink: &mut K,
    input: &[u8],
) -> Result<(), NoMemory>
    ensures { OnOk result ((text : List ℕ) × IsSaidOf F.modulus input.now text
        × Appended (K.written sink.old) (K.written sink.new) text) }
{
    let mut out = TextWriter::new(sink);
    let said = put_said::<F, T, K, Brand, Brand>(
        alloc,
        &mut out,
        input,
        Blank::new(1),
        Blank::new(1),
    );
    match (said, out.finish()) {
        (Ok(()), Ok(())) => Ok(()),
        _ => Err(NoMemory),
    }
}

// Puts the replies to the lines of a text, with searches and steps counted in ledgers.
fn put_said<F: Field, T: Tableau<F>, K: Sink, L: Ledger, M: Ledger>(
    alloc: Global,
    out: &mut TextWriter<'_, K>,
    input: &[u8],
    searches: Blank,
    steps: Blank,
) -> Result<(), NoMemory>
    requires searches { (searches.name ≡ L.name) × (searches.parts ≡ L.parts) × (0 < searches.parts) }
    requires steps { (steps.name ≡ M.name) × (steps.parts ≡ M.parts) × (0 < steps.parts) }
    ensures { OnOk result
        (PutsSaid K.Sink F.modulus (empty_models desk_limit) (lines_of input.now) out.old out.new) }
{
    let mut searches = Steps::<L>::new(searches);
    let mut steps = Steps::<M>::new(steps);
    let mut desk = Desk::<F, T>::open(alloc, DESK_LIMIT)?;
    put_replies(out, &mut desk, input, &mut searches, &mut steps)
}

// Puts the replies of a desk to the lines of a text.
fn put_replies<F: Field, T: Tableau<F>, K: Sink, L: Ledger, M: Ledger>(
    out: &mut TextWriter<'_, K>,
    desk: &mut Desk<F, T>,
    input: &[u8],
    searches: &mut Steps<L>,
    steps: &mut Steps<M>,
) -> Result<(), NoMemory>
    requires { length desk.old ≡ desk_limit }
    ensures { OnOk result (PutsSaid K.Sink F.modulus desk.old (lines_of input.now) out.old out.new) }
{
    let mut rest = input;
    while let Some((line, others)) = next_line(rest) {
        put_reply(out, desk, line, searches, steps)?;
        rest = others;
    }
    Ok(())
}

// The first line of a text, and what stands behind it.
fn next_line<'a>(text: &'a [u8]) -> Option<(&'a [u8], &'a [u8])>
    ensures lines { MatchOption result (lines_of text.now ≡ [])
        (λ cut. lines_of text.now ≡ cut.0.now ∷ lines_of cut.1.now) }
    ensures shorter { IfSome result (λ cut. length cut.1.now < length text.now) }
{
    if text.is_empty() {
        return None;
    }
    match first_line_feed(text) {
        Some(end) => Some((without_return(&text[..end]), &text[end + 1..])),
        None => Some((without_return(text), &[])),
    }
}

// Puts the reply of a desk to a line.
fn put_reply<F: Field, T: Tableau<F>, K: Sink, L: Ledger, M: Ledger>(
    out: &mut TextWriter<'_, K>,
    desk: &mut Desk<F, T>,
    line: &[u8],
    searches: &mut Steps<L>,
    steps: &mut Steps<M>,
) -> Result<(), NoMemory>
    requires { length desk.old ≡ desk_limit }
    ensures { OnOk result (PutsReply K.Sink F.modulus desk.old line.now desk.new out.old out.new) }
{
    let reply = desk.command(line, searches, steps)?;
    put_answer(out, desk, line, reply);
    Ok(())
}

// Puts the text of a reply to a line.
fn put_answer<F: Field, T: Tableau<F>, K: Sink>(
    out: &mut TextWriter<'_, K>,
    desk: &Desk<F, T>,
    line: &[u8],
    reply: Reply,
)
    requires count { length desk.now ≡ desk_limit }
    requires reply { (old : List MixedModel) × IsReply F.modulus old line.now desk.now reply }
    ensures { (text : List ℕ) × IsReplyText desk.now line.now reply text × Puts K.Sink out.old out.new text }
{
    match reply {
        Reply::Nothing => {}
        Reply::Refused(why) => put_refused(out, why),
        Reply::Changed { rank } => put_number(out, b"changed", rank),
        Reply::Parts { rank, parts } => put_asked(out, desk, line, rank, &parts),
    }
}

// Puts what is told of the model that a line asks for.
fn put_asked<F: Field, T: Tableau<F>, K: Sink>(
    out: &mut TextWriter<'_, K>,
    desk: &Desk<F, T>,
    line: &[u8],
    rank: usize,
    parts: &Parts,
)
    requires count { length desk.now ≡ desk_limit }
    requires asked { IsAsked F.modulus desk.now line.now rank parts.now }
    ensures { (text : List ℕ) × IsReplyText desk.now line.now (Told rank parts.now) text
        × Puts K.Sink out.old out.new text }
{
    let Ok(Some(order)) = read_order(DESK_LIMIT, line) else {
        unreachable!()
    };
    let layered = desk.layered(order.model + 1);
    // a layered matrix has at most 8,192 columns, and parts have no more blocks
    layered.q.is_matrix();
    put_parts(out, desk.model(order.model + 1), layered, rank, parts);
}
