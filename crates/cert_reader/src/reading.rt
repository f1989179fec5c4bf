//! The whole of a certificate.

ghost use Rattle.std.specs.Prelude.{◌≡◌, ◌<◌, ◌≤◌, ◌+◌, ◌*◌, ◌^◌, ℕ, codes, length, IfOk, IfErr, Ok};
ghost use Rattle.limits.specs.Limits.{equation_limit};
ghost use Rattle.cert_text.specs.Contents as contents;
ghost use Rattle.cert_text.specs.Contents.{contents_of, numbered_rows};
ghost use Rattle.cert_text.specs.Ranges.{IsShape, IsCcf};
ghost use Rattle.cert_text.specs.Texts.{certificate_text};
ghost use Rattle.cert_reader.specs.Fronts.{GivesReading};
ghost use Rattle.cert_reader.specs.Limits.{certificate_limit};
ghost use Rattle.cert_reader.specs.CertLines.{IsCertificate, IsCause};
ghost use Rattle.cert_reader.specs.CertReading.{contents_at, body_at, certificate_at, parts_at, matrices_at, pieces_at};
ghost use Rattle.cert_reader.specs.Certificates.{certificate_in};

use crate::any_certificate::AnyCertificate;
use crate::fault::ReadCert;
use crate::field_lines::{field_at, field_count, version_at};
use crate::linewise::{count_at, echo_at, kind_at, pairs_line_at, shape_at, tail_at};
use crate::tables::{blocks_at, matrix_at, pattern_at};
use cert_text::{Ccf, CcfBlock, CcfPart, Certificate, Items, Shape, Version};
use limits::{COLUMN_LIMIT, INPUT_LIMIT};
use residue_field::{Field, FieldName};
use std::alloc::Global;

/// How many bytes the text of a certificate has at most that is read.
pub const CERTIFICATE_LIMIT: usize = 2_147_483_648;

// The lines of the parts.
#[derive(Drop)]
struct Parts {
    first: CcfPart,
    blocks: Vec<CcfBlock>,
    last: CcfPart,
}

// The lines of S, U, P and T, and those of the parts.
#[derive(Drop)]
struct Matrices<F: Field> {
    s: Vec<Items<(usize, F)>>,
    u: Vec<Items<(usize, F)>>,
    p: Vec<Items<(usize, F)>>,
    t: Vec<Items<usize>>,
    parts: Parts,
}

// The lines from the shape on.
#[derive(Drop)]
struct Pieces<F: Field> {
    shape: Shape,
    rank: usize,
    base: Vec<(usize, usize)>,
    mates: Vec<(usize, usize)>,
    matrices: Matrices<F>,
}

fn parts_at(
    alloc: Global,
    line: u32,
    shape: Shape,
    bytes: &[u8],
) -> Result<(Parts, &[u8]), ReadCert>
    requires shape { IsShape shape }
    requires short { length bytes.now ≤ certificate_limit }
    requires room { line + certificate_limit + 3 < 2 ^ 32 }
    ensures { GivesReading (λ x. ((x.0.first, (x.0.blocks.items, x.0.last)), x.1.now)) result
        (parts_at shape line bytes.now) }
{
    let (first, rest) = tail_at(alloc, line, b"first", shape, bytes)?;
    let ((blocks, last), rest) = blocks_at(alloc, line + 1, shape, rest)?;
    let parts = Parts {
        first,
        blocks,
        last,
    };
    Ok((parts, rest))
}

fn matrices_at<F: Field>(
    alloc: Global,
    line: u32,
    shape: Shape,
    bytes: &[u8],
) -> Result<(Matrices<F>, &[u8]), ReadCert>
    requires shape { IsShape shape }
    requires short { length bytes.now ≤ certificate_limit }
    requires room { line + certificate_limit + 4 * equation_limit + 3 < 2 ^ 32 }
    ensures { GivesReading (λ x. (
      (
        numbered_rows F.number x.0.s.items,
        (
          numbered_rows F.number x.0.u.items,
          (
            numbered_rows F.number x.0.p.items,
            (
              x.0.t.items,
              (x.0.parts.first, (x.0.parts.blocks.items, x.0.parts.last)),
            ),
          ),
        ),
      ),
      x.1.now,
    )) result
        (matrices_at F.modulus shape line bytes.now) }
{
    let q = shape.q_rows;
    let at_u = line + q as u32;
    let at_p = at_u + q as u32;
    let at_t = at_p + q as u32;
    let at_parts = at_t + shape.t_rows as u32;
    let (s, from_u) = matrix_at(alloc, line, b"S", q, q, bytes)?;
    let (u, from_p) = matrix_at(alloc, at_u, b"U", q, q, from_u)?;
    let (p, from_t) = matrix_at(alloc, at_p, b"P", shape.columns, q, from_p)?;
    let (t, from_parts) = pattern_at(alloc, at_t, b"T", shape.columns, shape.t_rows, from_t)?;
    let (parts, rest) = parts_at(alloc, at_parts, shape, from_parts)?;
    let matrices = Matrices { s, u, p, t, parts };
    Ok((matrices, rest))
}

#[tactic(auto, unfolding(crate::specs::CertReading::contents_at))]
fn pieces_at<F: Field>(
    alloc: Global,
    line: u32,
    bytes: &[u8],
) -> Result<(Pieces<F>, &[u8]), ReadCert>
    requires short { length bytes.now ≤ certificate_limit }
    requires room { line + certificate_limit + 4 * equation_limit + 7 < 2 ^ 32 }
    ensures { GivesReading (λ x. (
      contents_of F.number x.0.shape x.0.rank x.0.base.items x.0.mates.items
          x.0.matrices.s.items x.0.matrices.u.items x.0.matrices.p.items x.0.matrices.t.items
          x.0.matrices.parts.first x.0.matrices.parts.blocks.items x.0.matrices.parts.last,
      x.1.now,
    )) result
        (contents_at F.modulus line bytes.now) }
{
    let at_rank = line + 1;
    let at_base = at_rank + 1;
    let at_mates = at_base + 1;
    let at_s = at_mates + 1;
    let (shape, from_rank) = shape_at(line, bytes)?;
    let (q, t, n) = (shape.q_rows, shape.t_rows, shape.columns);
    let (rank, from_base) = count_at(at_rank, b"rank ", COLUMN_LIMIT, from_rank)?;
    let (base, from_mates) = pairs_line_at(alloc, at_base, b"base", q, n, from_base)?;
    let (mates, from_s) = pairs_line_at(alloc, at_mates, b"match", t, n, from_mates)?;
    let (matrices, rest) = matrices_at(alloc, at_s, shape, from_s)?;
    let pieces = Pieces {
        shape,
        rank,
        base,
        mates,
        matrices,
    };
    Ok((pieces, rest))
}

fn contents_at<F: Field>(
    alloc: Global,
    line: u32,
    bytes: &[u8],
) -> Result<(Ccf<F>, &[u8]), ReadCert>
    requires short { length bytes.now ≤ certificate_limit }
    requires room { line + certificate_limit + 4 * equation_limit + 7 < 2 ^ 32 }
    ensures { GivesReading (λ x. (x.0, x.1.now)) result (contents_at F.modulus line bytes.now) }
{
    let (pieces, rest) = pieces_at(alloc, line, bytes)?;
    let matrices = pieces.matrices;
    let parts = matrices.parts;
    let ccf = Ccf::new(
        pieces.shape,
        pieces.rank,
        Items::from_vec(pieces.base),
        Items::from_vec(pieces.mates),
        Items::from_vec(matrices.s),
        Items::from_vec(matrices.u),
        Items::from_vec(matrices.p),
        Items::from_vec(matrices.t),
        parts.first,
        Items::from_vec(parts.blocks),
        parts.last,
    );
    Ok((ccf, rest))
}

// The lines from that of the kind on. The echo is copied once the whole text is read.
#[tactic(auto, unfolding(crate::specs::CertReading::body_at))]
fn body_at<F: Field>(
    alloc: Global,
    version: Version,
    line: u32,
    bytes: &[u8],
) -> Result<(Certificate<F>, &[u8]), ReadCert>
    requires short { length bytes.now ≤ certificate_limit }
    requires room { line ≤ 3 }
    ensures { GivesReading (λ x. (x.0, x.1.now)) result (body_at version F.modulus line bytes.now) }
{
    let at_size = line + 1;
    let at_echo = at_size + 1;
    let at_shape = at_echo + 1;
    let (kind, from_size) = kind_at(line, bytes)?;
    let (size, from_echo) = count_at(at_size, b"length ", INPUT_LIMIT, from_size)?;
    let (echo, from_shape) = echo_at(at_echo, size, from_echo)?;
    let (ccf, rest) = contents_at(alloc, at_shape, from_shape)?;
    let echo = Items::from_vec(Vec::from_slice(alloc, echo)?);
    let certificate = Certificate {
        version,
        kind,
        echo,
        ccf,
    };
    Ok((certificate, rest))
}

#[tactic(auto, unfolding(crate::specs::CertReading::certificate_at))]
fn certificate_at(alloc: Global, bytes: &[u8]) -> Result<(AnyCertificate, &[u8]), ReadCert>
    requires { length bytes.now ≤ certificate_limit }
    ensures { GivesReading (λ x. (certificate_in x.0, x.1.now)) result (certificate_at 1 bytes.now) }
{
    let (version, from_field) = version_at(1, bytes)?;
    let (field, from_kind) = field_at(2, version, from_field)?;
    let line = 2 + field_count(version);
    match field {
        FieldName::Small => {
            let (certificate, rest) = body_at(alloc, version, line, from_kind)?;
            Ok((AnyCertificate::Small(certificate), rest))
        }
        FieldName::Large => {
            let (certificate, rest) = body_at(alloc, version, line, from_kind)?;
            Ok((AnyCertificate::Large(certificate), rest))
        }
    }
}

/// The certificate whose text the bytes are, at most 2,147,483,648 of them, over the field that the text tells: in version
/// 1 that of 65,521 elements. It takes room for what stands there, and none for a number that a line only tells.
///
/// Refuses the first line that no certificate has behind the lines before it. So a text that breaks off is refused at the
/// line that is not whole, or else at the next, and bytes behind the last line at the line that they begin.
pub fn read(alloc: Global, bytes: &[u8]) -> Result<AnyCertificate, ReadCert>
    requires { length bytes.now ≤ certificate_limit }
    ensures found { IfOk result (λ any. IsCertificate (certificate_in any) ×
        (bytes.now ≡ certificate_text (certificate_in any))) }
    ensures only { (c : contents.Certificate) → IsCertificate c → bytes.now ≡ certificate_text c →
        GivesReading certificate_in result (Ok c) }
    ensures refused { IfErr result (λ e. IsCause e bytes.now) }
{
    let (certificate, _rest) = certificate_at(alloc, bytes)?;
    Ok(certificate)
}

/// The constant is the number that contracts name.
pub fn limit_is_the_number()
    ensures { CERTIFICATE_LIMIT ≡ certificate_limit }
{}
