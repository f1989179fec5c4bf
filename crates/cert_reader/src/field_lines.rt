//! The lines of the version and of the field.

ghost use Rattle.std.specs.Prelude.{◌≡◌};
ghost use Rattle.cert_reader.specs.CertReading.{field_count};
ghost use Rattle.cert_reader.specs.Fronts.{GivesReading};
ghost use Rattle.cert_reader.specs.LineReading.{version_at, field_at, field_line_at};
ghost use Rattle.residue_field.specs.Modulus.{modulus_of};

use crate::fault::ReadCert;
use crate::fronts::{behind, text_at};
use cert_text::Version;
use residue_field::FieldName;

/// The line of the version.
#[tactic(auto, unfolding(crate::specs::LineReading::version_at))]
pub fn version_at(line: u32, bytes: &[u8]) -> Result<(Version, &[u8]), ReadCert>
    ensures { GivesReading (λ x. (x.0, x.1.now)) result (version_at line bytes.now) }
{
    if let Some(rest) = behind(b"mixed-certificate 1\n", bytes) {
        return Ok((Version::One, rest));
    }
    if let Some(rest) = behind(b"mixed-certificate 2\n", bytes) {
        return Ok((Version::Two, rest));
    }
    Err(ReadCert::Refused { line })
}

/// The field that a certificate of this version is over, by its line in version 2.
#[tactic(auto, unfolding(crate::specs::LineReading::field_at))]
pub fn field_at(line: u32, version: Version, bytes: &[u8]) -> Result<(FieldName, &[u8]), ReadCert>
    ensures { GivesReading (λ x. (modulus_of x.0, x.1.now)) result (field_at version line bytes.now) }
{
    match version {
        Version::One => Ok((FieldName::Small, bytes)),
        Version::Two => field_line_at(line, bytes),
    }
}

// The line of the field.
#[tactic(auto, unfolding(crate::specs::LineReading::field_line_at))]
fn field_line_at(line: u32, bytes: &[u8]) -> Result<(FieldName, &[u8]), ReadCert>
    ensures { GivesReading (λ x. (modulus_of x.0, x.1.now)) result (field_line_at line bytes.now) }
{
    if let Some(rest) = behind(b"field 65521\n", bytes) {
        return Ok((FieldName::Small, rest));
    }
    if let Some(rest) = behind(b"field 2147483647\n", bytes) {
        return Ok((FieldName::Large, rest));
    }
    Err(ReadCert::Refused { line })
}

/// How many lines tell the field.
pub fn field_count(version: Version) -> u32
    ensures { result ≡ field_count version }
{
    match version {
        Version::One => 0,
        Version::Two => 1,
    }
}
