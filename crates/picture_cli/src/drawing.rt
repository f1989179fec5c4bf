//! What is drawn of an input.

ghost use Rattle.std.specs.Prelude.{IfErr, IfOk};
ghost use Rattle.text_writer.specs.Giving.{IsWritten};
ghost use Rattle.cert_reader.specs.Limits.{certificate_limit};
ghost use Rattle.cert_verdict.specs.Accepted.{accepted_in};
ghost use Rattle.text_writer.specs.Texts.{Puts};
ghost use Rattle.run_ends.specs.Reading.{IsUnread, ReadsWhole, TellsOfSource};
ghost use Rattle.cert_verdict.specs.Statuses.{IsUnaccepted};
ghost use Rattle.picture_cli.specs.Answer.{IsDrawnFor};
ghost use Rattle.picture_cli.specs.Drawings.{IsLaidOut, drawing_in, drawing_text};

use cert_reader::CERTIFICATE_LIMIT;
use cert_text::Certificate;
use cert_verdict::{Accepted, AnyAccepted, accept};
use matrix_picture::{Layout, put_picture};
use mixed_layering::layer;
use mixed_model::{Layered, Mixed};
use out_of_memory::NoMemory;
use port_io::{Sink, Source, WriteFault};
use residue_field::{Field, Res, Res31};
use run_ends::{Status, read_text};
use std::alloc::Global;
use text_writer::TextWriter;

/// What is drawn: an accepted certificate, its model, the layered matrix of the model, and the layout of the form.
#[derive(Drop)]
pub struct Drawing<F: Field> {
    pub certificate: Certificate<F>,
    pub model: Mixed<F>,
    pub layered: Layered<F>,
    pub layout: Layout,
}

/// What is drawn, over one of the two fields.
#[derive(Drop)]
pub enum AnyDrawing {
    /// With values modulo 65,521.
    Small(Drawing<Res>),
    /// With values modulo 2,147,483,647.
    Large(Drawing<Res31>),
}

/// What is drawn of the input that the source gives, or how the run ends without it.
pub fn read_drawing<S: Source>(alloc: Global, source: &mut S) -> Result<AnyDrawing, Status>
    ensures right { IfOk result (λ any. ReadsWhole certificate_limit (S.left source.old) (S.left source.new)
        (λ input. IsDrawnFor input (drawing_in any))) }
    ensures unread { IfErr result (λ status.
        IsUnread certificate_limit IsUnaccepted status (S.left source.old) (S.left source.new)) }
    ensures source { TellsOfSource S.Source certificate_limit source.old source.new result }
{
    let text = read_text(alloc, source, CERTIFICATE_LIMIT as u64)?;
    let accepted = accept(alloc, text)?;
    Ok(place_any(alloc, accepted)?)
}

// What is drawn of an accepted certificate, of whichever field.
fn place_any(alloc: Global, any: AnyAccepted) -> Result<AnyDrawing, NoMemory>
    ensures { IfOk result (λ drawing. IsLaidOut (accepted_in any) (drawing_in drawing)) }
{
    match any {
        AnyAccepted::Small(accepted) => Ok(AnyDrawing::Small(place(alloc, accepted)?)),
        AnyAccepted::Large(accepted) => Ok(AnyDrawing::Large(place(alloc, accepted)?)),
    }
}

// What is drawn of an accepted certificate.
fn place<F: Field>(alloc: Global, accepted: Accepted<F>) -> Result<Drawing<F>, NoMemory>
    ensures { IfOk result (IsLaidOut accepted) }
{
    let layered = layer(alloc, &accepted.model)?;
    let layout = Layout::of(alloc, &accepted.certificate.ccf)?;
    Ok(Drawing {
        certificate: accepted.certificate,
        model: accepted.model,
        layered,
        layout,
    })
}

/// Appends the whole picture of a certificate's form to the sink, in pieces of some KiB, and takes no memory. It does not
/// flush.
pub fn write_drawing<K: Sink>(out: &mut K, any: &AnyDrawing) -> Result<(), WriteFault>
    ensures { IsWritten K.Sink out.old out.new (drawing_text (drawing_in any.now)) result }
{
    let mut writer = TextWriter::new(out);
    put_any(&mut writer, any);
    writer.finish()
}

// Puts the picture, over whichever field.
fn put_any<K: Sink>(out: &mut TextWriter<'_, K>, any: &AnyDrawing)
    ensures { Puts K.Sink out.old out.new (drawing_text (drawing_in any.now)) }
{
    match any {
        AnyDrawing::Small(drawing) => put_drawing(out, drawing),
        AnyDrawing::Large(drawing) => put_drawing(out, drawing),
    }
}

// Puts the picture.
fn put_drawing<F: Field, K: Sink>(out: &mut TextWriter<'_, K>, drawing: &Drawing<F>)
    ensures { Puts K.Sink out.old out.new (drawing_text drawing.now) }
{
    put_picture(
        out,
        &drawing.model,
        &drawing.layered,
        &drawing.certificate.ccf,
        &drawing.layout,
    );
}
