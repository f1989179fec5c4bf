//! What the lines of a certificate are, and that a text has one certificate or one line that is refused first.

ghost use Rattle.std.specs.Prelude.{◌≡◌, ◌≤◌, ◌⊎◌, ◌++◌, ℕ, List, [], length};
ghost use Rattle.std.specs.List.{concat};
ghost use Rattle.cert_text.specs.Contents.{Certificate};
ghost use Rattle.cert_text.specs.Texts.{certificate_text};
ghost use Rattle.cert_reader.specs.Limits.{certificate_limit};
ghost use Rattle.cert_reader.specs.CertLines.{IsCertificate, certificate_lines, IsOfCertificate, IsNoCertificate, IsRefusedAt};

/// The text of a certificate is its lines, one after the other.
pub fn a_text_is_its_lines()
    ensures { (c : Certificate) → concat (certificate_lines c) ≡ certificate_text c }
{}

/// A text has at most one line that is the first refused.
pub fn one_line_is_refused()
    ensures { (text : List ℕ) (j k : ℕ) → IsRefusedAt text j → IsRefusedAt text k → j ≡ k }
{}

/// Two certificates with the same text are the same.
pub fn a_text_has_one_certificate()
    ensures { (a b : Certificate) → IsCertificate a → IsCertificate b →
        length (certificate_text b) ≤ certificate_limit → certificate_text a ≡ certificate_text b → a ≡ b }
{}

/// No text of a certificate goes on to that of another.
pub fn no_text_goes_on_to_another()
    ensures { (a b : Certificate) (more : List ℕ) → IsCertificate a → IsCertificate b →
        length (certificate_text b) ≤ certificate_limit → certificate_text a ++ more ≡ certificate_text b →
        more ≡ [] }
{}

/// Each text within the limit is that of a certificate, or a line of it is the first refused.
pub fn each_text_is_read_or_refused()
    ensures { (text : List ℕ) → length text ≤ certificate_limit →
        IsOfCertificate text ⊎ ((line : ℕ) × IsNoCertificate text line) }
{}
