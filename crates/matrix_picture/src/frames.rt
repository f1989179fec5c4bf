//! The frames of parts, put into a writer.

ghost use Rattle.std.specs.Prelude.{◌≡◌, ◌<◌, [], if◌then◌else◌, length};
ghost use Rattle.text_writer.specs.Texts.{Puts};
ghost use Rattle.matrix_picture.specs.Texts.{box_head, box_text, frame_text, frames_text, is_legible, label_text, outline_of};
ghost use Rattle.matrix_picture.specs.Texts.{first_name, frame_columns, frame_rows, last_name, part_name, place_attributes, title_text};

use crate::layout::Frame;
use port_io::Sink;
use text_writer::TextWriter;

/// Puts the frames of all parts, each with its name where it has at least so many columns or rows.
pub fn put_frames<K: Sink>(out: &mut TextWriter<'_, K>, least: u64, frames: &[Frame])
    ensures { Puts K.Sink out.old out.new (frames_text least (length frames.now) 0 frames.now) }
{
    for (place, frame) in frames.iter().enumerate() {
        put_frame(out, least, frames.len() as u64, place as u64, *frame);
    }
}

// Puts the frame of a part, and its name where it is not too small.
fn put_frame<K: Sink>(out: &mut TextWriter<'_, K>, least: u64, count: u64, place: u64, frame: Frame)
    requires { place < count }
    ensures { Puts K.Sink out.old out.new (frame_text least count place frame) }
{
    put_box(out, count, place, frame);
    put_legible_label(out, least, count, place, frame);
}

// Puts the name of a part where it is not too small.
fn put_legible_label<K: Sink>(
    out: &mut TextWriter<'_, K>,
    least: u64,
    count: u64,
    place: u64,
    frame: Frame,
)
    requires { place < count }
    ensures { Puts K.Sink out.old out.new (if is_legible least frame then label_text count place frame else []) }
{
    if is_legible(least, frame) {
        put_label(out, count, place, frame);
    }
}

// Whether a part has at least so many columns, or rows.
fn is_legible(least: u64, frame: Frame) -> bool
    ensures { result ≡ is_legible least frame }
{
    least <= frame_columns(frame) || least <= frame_rows(frame)
}

// How many columns a part has.
fn frame_columns(frame: Frame) -> u64
    ensures { result ≡ frame_columns frame }
{
    frame.right.saturating_sub(frame.left) as u64
}

// How many rows a part has.
fn frame_rows(frame: Frame) -> u64
    ensures { result ≡ frame_rows frame }
{
    frame.bottom.saturating_sub(frame.top) as u64
}

// Puts the frame of a part, and what a viewer tells of it.
fn put_box<K: Sink>(out: &mut TextWriter<'_, K>, count: u64, place: u64, frame: Frame)
    requires { place < count }
    ensures { Puts K.Sink out.old out.new (box_text count place frame) }
{
    out.piece(box_head(count, place));
    put_outline_of(out, frame);
    out.piece(b"z\">");
    put_title(out, count, place, frame);
    out.piece(b"</path>\n");
}

// How the frame of a part begins.
fn box_head(count: u64, place: u64) -> &'static [u8]
    requires { place < count }
    ensures { result.now ≡ box_head count place }
{
    if place == 0 {
        b"<path class=\"o\" d=\""
    } else if place + 1 == count {
        b"<path class=\"m\" d=\""
    } else {
        b"<path d=\""
    }
}

// Puts the line around a part.
fn put_outline_of<K: Sink>(out: &mut TextWriter<'_, K>, frame: Frame)
    ensures { Puts K.Sink out.old out.new (outline_of frame) }
{
    out.number(b'M', frame.left as u64);
    out.number(b' ', frame.top as u64);
    out.number(b'H', frame.right as u64);
    out.number(b'V', frame.bottom as u64);
    out.number(b'H', frame.left as u64);
}

// Puts the name and the size of a part.
fn put_title<K: Sink>(out: &mut TextWriter<'_, K>, count: u64, place: u64, frame: Frame)
    requires { place < count }
    ensures { Puts K.Sink out.old out.new (title_text count place frame) }
{
    out.piece(b"<title");
    put_part_name(out, count, place, frame);
    out.piece(b", rows");
    out.number(b' ', frame_rows(frame));
    out.piece(b", columns");
    out.number(b' ', frame_columns(frame));
    out.piece(b"</title>");
}

// Puts the name of a part, left of its frame and at its foot.
fn put_label<K: Sink>(out: &mut TextWriter<'_, K>, count: u64, place: u64, frame: Frame)
    requires { place < count }
    ensures { Puts K.Sink out.old out.new (label_text count place frame) }
{
    out.piece(b"<text class=\"p\"");
    put_place(out, frame.left as u64, frame.bottom as u64);
    out.piece(b" dx=\"-.3em\" dy=\"-.2em\"");
    put_part_name(out, count, place, frame);
    out.piece(b"</text>\n");
}

// Puts what a part is called.
fn put_part_name<K: Sink>(out: &mut TextWriter<'_, K>, count: u64, place: u64, frame: Frame)
    requires { place < count }
    ensures { Puts K.Sink out.old out.new (part_name count place frame) }
{
    if place == 0 {
        out.piece(first_name(frame));
    } else if place + 1 == count {
        out.piece(last_name(frame));
    } else {
        out.number(b'>', place);
    }
}

// What the first part is called.
fn first_name(frame: Frame) -> &'static [u8]
    ensures { result.now ≡ first_name frame }
{
    if 1 <= frame_columns(frame) {
        b">first: open"
    } else {
        b">first"
    }
}

// What the last part is called.
fn last_name(frame: Frame) -> &'static [u8]
    ensures { result.now ≡ last_name frame }
{
    if 1 <= frame_rows(frame) {
        b">last: too many"
    } else {
        b">last"
    }
}

/// Puts a place, as two attributes.
pub fn put_place<K: Sink>(out: &mut TextWriter<'_, K>, left: u64, top: u64)
    ensures { Puts K.Sink out.old out.new (place_attributes left top) }
{
    out.piece(b" x=");
    out.number(b'"', left);
    out.piece(b"\" y=");
    out.number(b'"', top);
    out.piece(b"\"");
}
