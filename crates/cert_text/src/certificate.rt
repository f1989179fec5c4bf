//! A certificate, and how its text is written.

ghost use Rattle.std.specs.Prelude.{◌≡◌};
ghost use Rattle.cert_text.specs.Certificates.{IsCertificate};
ghost use Rattle.cert_text.specs.Texts.{certificate_text, echo_text, kind_text, version_text};
ghost use Rattle.cert_text.specs.declared.version.Version.TheVariants.{Two};
ghost use Rattle.text_writer.specs.Giving.{IsWritten};
ghost use Rattle.text_writer.specs.Texts.{Puts};

use crate::ccf::Ccf;
use crate::items::Items;
use crate::kind::Kind;
use crate::version::Version;
use port_io::{Sink, WriteFault};
use residue_field::Field;
use std::marker::Model;
use text_writer::TextWriter;

/// A certificate over the field: the layout of its text, the kind of an input, the input itself, and the canonical form
/// of its model.
#[derive(Drop)]
pub struct Certificate<F: Field> {
    pub version: Version,
    pub kind: Kind,
    /// The input, at most 8,388,608 bytes.
    pub echo: Items<u8>,
    pub ccf: Ccf<F>,
}

impl<F: Field> Model for Certificate<F> {
    ghost use Rattle.cert_text.specs.Contents as contents;

    ghost Value = { contents.Certificate };

    ghost view = { λ c. record {
      version = c.version;
      modulus = F.modulus;
      kind = c.kind;
      echo = c.echo;
      ccf = c.ccf;
    } };
}

/// Appends the whole text of a certificate to the sink, in pieces of some KiB, and takes no memory. It does not flush.
/// In version 1 the field is the smaller one, as the text names none. Where the sink fails, a first part of the text was
/// appended, and `written` counts its bytes.
pub fn write<F: Field, K: Sink>(cert: &Certificate<F>, out: &mut K) -> Result<(), WriteFault>
    requires { IsCertificate cert.now }
    ensures { IsWritten K.Sink out.old out.new (certificate_text cert.now) result }
{
    let mut writer = TextWriter::new(out);
    put_certificate(&mut writer, cert);
    writer.finish()
}

// Puts the text of a certificate.
fn put_certificate<F: Field, K: Sink>(out: &mut TextWriter<'_, K>, cert: &Certificate<F>)
    ensures { Puts K.Sink out.old out.new (certificate_text cert.now) }
{
    put_echo(
        out,
        cert.version,
        F::MODULUS,
        cert.kind,
        cert.echo.as_slice(),
    );
    cert.ccf.put(out);
}

// Puts the version and the field, the kind, the length and the echo.
fn put_echo<K: Sink>(
    out: &mut TextWriter<'_, K>,
    version: Version,
    modulus: u32,
    kind: Kind,
    echo: &[u8],
)
    ensures { Puts K.Sink out.old out.new (echo_text version modulus kind echo.now) }
{
    put_version(out, version, modulus);
    out.piece(b"kind ");
    out.piece(word_of(kind));
    out.piece(b"\nlength");
    out.number(b' ', echo.len() as u64);
    out.piece(b"\n");
    out.piece(echo);
    out.piece(b"\n");
}

// Puts the line of the version, and in version 2 that of the field.
fn put_version<K: Sink>(out: &mut TextWriter<'_, K>, version: Version, modulus: u32)
    ensures { Puts K.Sink out.old out.new (version_text version modulus) }
{
    match version {
        Version::One => out.piece(b"mixed-certificate 1\n"),
        Version::Two => put_field(out, modulus),
    }
}

// Puts the line of version 2, and that of the field.
fn put_field<K: Sink>(out: &mut TextWriter<'_, K>, modulus: u32)
    ensures { Puts K.Sink out.old out.new (version_text Two modulus) }
{
    out.piece(b"mixed-certificate 2\nfield");
    out.number(b' ', modulus as u64);
    out.piece(b"\n");
}

// The word for a kind.
fn word_of(kind: Kind) -> &'static [u8]
    ensures { result.now ≡ kind_text kind }
{
    match kind {
        Kind::Matrix => b"matrix",
        Kind::Netlist => b"netlist",
        Kind::Flowsheet => b"flowsheet",
    }
}
