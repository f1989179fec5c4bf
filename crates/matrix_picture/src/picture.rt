//! The picture of a form, put into a writer.

ghost use Rattle.std.specs.Prelude.{◌≡◌};
ghost use Rattle.text_writer.specs.Texts.{Puts};
ghost use Rattle.matrix_picture.specs.Texts.{closing, is_small, opening, picture_text, style};

use crate::detailed::put_detailed;
use crate::layout::Layout;
use crate::outline::put_outline;
use cert_text::Ccf;
use mixed_model::{Layered, Mixed};
use port_io::Sink;
use residue_field::Field;
use text_writer::TextWriter;

/// Puts the whole text of the SVG picture of a form of a model with this layered matrix, placed by a layout: the frames
/// of its parts, the entries that are not 0, all names, and the sizes. Names stand beside columns and rows where there
/// are at most 64 of each, and else a viewer tells them. It takes no memory. (Murota, chapter 4.)
pub fn put_picture<F: Field, K: Sink>(
    out: &mut TextWriter<'_, K>,
    model: &Mixed<F>,
    layered: &Layered<F>,
    ccf: &Ccf<F>,
    layout: &Layout,
)
    ensures { Puts K.Sink out.old out.new (picture_text model.now layered.now ccf.now layout.now) }
{
    if layout.columns().len() <= 64 && layout.rows().len() <= 64 {
        put_detailed(out, model, layered, ccf, layout);
    } else {
        put_outline(out, model, layered, ccf, layout);
    }
}

/// Puts how each picture begins.
pub(crate) fn put_opening<K: Sink>(out: &mut TextWriter<'_, K>)
    ensures { Puts K.Sink out.old out.new opening }
{
    out.piece(
        b"<svg xmlns=\"http://www.w3.org/2000/svg\" font-family=\"sans-serif\" style=\"background:#fff\"",
    );
}

/// Puts the styles, with this width of the lines of frames.
pub(crate) fn put_style<K: Sink>(out: &mut TextWriter<'_, K>, line: &[u8])
    ensures { Puts K.Sink out.old out.new (style line.now) }
{
    out.piece(b"<style>path{fill:#eef2f6;stroke:#667;");
    out.piece(line);
    out.piece(
        b"}.o{fill:#fbeeb8}.m{fill:#f9d3d3}.c,.s{vector-effect:none;stroke-width:.6;stroke-linecap:square}",
    );
    out.piece(b".c{stroke:#1f4e79}.s{stroke:#d2601a;stroke-width:.68;stroke-linecap:round}");
    out.piece(b".n{stroke:none}.p{text-anchor:end;fill:#667;font-size:.8em}</style>\n");
}

/// Puts how each picture ends.
pub(crate) fn put_closing<K: Sink>(out: &mut TextWriter<'_, K>)
    ensures { Puts K.Sink out.old out.new closing }
{
    out.piece(b"</svg>\n");
}
