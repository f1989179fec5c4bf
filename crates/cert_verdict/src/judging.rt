//! A certificate's text read, its echo read by its kind, and its form checked.

ghost use Rattle.std.specs.Prelude.{◌≡◌, ◌≤◌, IfErr, IfOk, length};
ghost use Rattle.cert_reader.specs.Certificates.{certificate_in};
ghost use Rattle.cert_reader.specs.CertLines.{IsCertificate};
ghost use Rattle.cert_reader.specs.Limits.{certificate_limit};
ghost use Rattle.cert_text.specs.Texts.{certificate_text};
ghost use Rattle.cert_verdict.specs.Accepted.{accepted_in};
ghost use Rattle.cert_verdict.specs.Judging.{IsWhyNotTaken};
ghost use Rattle.cert_checker.specs.Answers.{IsRightFor};
ghost use Rattle.input_kinds.specs.Kinds.{GivesModel};
ghost use Rattle.mixed_model.specs.Models.{mixed_matrix_of};
ghost use Rattle.cert_verdict.specs.Verdicts.{IsAccepted, IsAcceptedAs, IsWhyNotAccepted, KeepsAllRules};

use cert_checker::check;
use cert_reader::{AnyCertificate, read};
use cert_text::Certificate;
use input_kinds::read_model;
use mixed_model::Mixed;
use residue_field::{Field, Res, Res31};
use std::alloc::Global;

/// Why a certificate's text is not accepted.
#[derive(Clone, Copy, Debug, PartialEq, Eq)]
pub enum NotAccepted {
    /// No certificate has this text: the first line that is refused, counted from 1. The echo is one line.
    Refused { line: u32 },
    /// The text is that of a certificate, which breaks this rule, from 1 to 12, and none before it.
    Rejected { rule: u32 },
    /// There was not enough memory.
    NoMemory,
}

/// What was accepted.
#[derive(Drop)]
pub struct Accepted<F: Field> {
    /// The certificate that has the text.
    pub certificate: Certificate<F>,
    /// The model that the echo of the certificate gives by its kind.
    pub model: Mixed<F>,
}

/// What was accepted, over one of the two fields.
#[derive(Drop)]
pub enum AnyAccepted {
    /// With values modulo 65,521.
    Small(Accepted<Res>),
    /// With values modulo 2,147,483,647.
    Large(Accepted<Res31>),
}

// The certificate that has this text. The text is let go.
fn read_certificate(alloc: Global, text: Vec<u8>) -> Result<AnyCertificate, NotAccepted>
    requires { length text.items ≤ certificate_limit }
    ensures found { IfOk result (λ any. IsCertificate (certificate_in any) ×
        (text.items ≡ certificate_text (certificate_in any))) }
    ensures unread { IfErr result (IsWhyNotAccepted text.items) }
{
    Ok(read(alloc, &text)?)
}

// The model that the echo of a certificate gives.
fn echoed_model<F: Field>(
    alloc: Global,
    certificate: &Certificate<F>,
) -> Result<Mixed<F>, NotAccepted>
    requires { IsCertificate certificate.now }
    ensures gives { IfOk result (GivesModel certificate.now.modulus certificate.now.kind certificate.now.echo) }
    ensures broken { IfErr result (IsWhyNotTaken certificate.now) }
{
    Ok(read_model(alloc, certificate.kind, certificate.echo.as_slice())?)
}

// Tries the rules 2 to 12 on a certificate whose echo gives this model.
fn check_form<F: Field>(
    alloc: Global,
    certificate: &Certificate<F>,
    model: &Mixed<F>,
) -> Result<(), NotAccepted>
    requires form { IsCertificate certificate.now }
    requires gives { GivesModel certificate.now.modulus certificate.now.kind certificate.now.echo model.now }
    ensures right { IfOk result (λ kept.
        IsRightFor certificate.now.modulus (mixed_matrix_of model.now) certificate.now.ccf) }
    ensures broken { IfErr result (IsWhyNotTaken certificate.now) }
{
    Ok(check(alloc, model, &certificate.ccf)?)
}

// What the certificate that has a text is accepted as.
fn accept_certificate<F: Field>(
    alloc: Global,
    certificate: Certificate<F>,
) -> Result<Accepted<F>, NotAccepted>
    requires { IsCertificate certificate }
    ensures same { IfOk result (λ accepted. accepted.certificate ≡ certificate) }
    ensures gives { IfOk result (λ accepted.
        GivesModel certificate.modulus certificate.kind certificate.echo accepted.model) }
    ensures right { IfOk result (λ accepted.
        IsRightFor certificate.modulus (mixed_matrix_of accepted.model) certificate.ccf) }
    ensures broken { IfErr result (IsWhyNotTaken certificate) }
{
    let model = echoed_model(alloc, &certificate)?;
    check_form(alloc, &certificate, &model)?;
    Ok(Accepted { certificate, model })
}

/// What the text of a certificate is accepted as, under the premises of `judge`: the certificate that has the text, and
/// the model that its echo gives, over the field that the text tells. (Murota, chapters 2 and 4.)
pub fn accept(alloc: Global, text: Vec<u8>) -> Result<AnyAccepted, NotAccepted>
    requires { length text.items ≤ certificate_limit }
    ensures accepted { IfOk result (λ any.
        IsAcceptedAs text.items (accepted_in any).certificate (accepted_in any).model) }
    ensures why { IfErr result (IsWhyNotAccepted text.items) }
{
    match read_certificate(alloc, text)? {
        AnyCertificate::Small(certificate) => {
            Ok(AnyAccepted::Small(accept_certificate(alloc, certificate)?))
        }
        AnyCertificate::Large(certificate) => {
            Ok(AnyAccepted::Large(accept_certificate(alloc, certificate)?))
        }
    }
}

// Tries all rules on the certificate that has a text.
fn judge_certificate<F: Field>(
    alloc: Global,
    certificate: Certificate<F>,
) -> Result<(), NotAccepted>
    requires { IsCertificate certificate }
    ensures keeps { IfOk result (λ kept. KeepsAllRules certificate) }
    ensures broken { IfErr result (IsWhyNotTaken certificate) }
{
    accept_certificate(alloc, certificate)?;
    Ok(())
}

/// Accepts the text of a certificate, of at most 2,147,483,648 bytes, exactly where it is right for the input that it
/// repeats, over the field that it tells, whoever wrote it. The text is let go before the form is checked. (Murota,
/// chapters 2 and 4.)
pub fn judge(alloc: Global, text: Vec<u8>) -> Result<(), NotAccepted>
    requires { length text.items ≤ certificate_limit }
    ensures accepted { IfOk result (λ accepted. IsAccepted text.items) }
    ensures why { IfErr result (IsWhyNotAccepted text.items) }
{
    match read_certificate(alloc, text)? {
        AnyCertificate::Small(certificate) => judge_certificate(alloc, certificate),
        AnyCertificate::Large(certificate) => judge_certificate(alloc, certificate),
    }
}
