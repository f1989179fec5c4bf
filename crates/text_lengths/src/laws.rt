//! Bounds of a certificate's text, and of the names of a text that is read.

ghost use Rattle.text_lengths.specs.Counts.{NetlistsHaveFewNames, TextsHaveFewNames};
ghost use Rattle.text_lengths.specs.Rooms.{CertificateTextsAreShort, EachCertificateIsBelow};

/// The text of a right certificate over a field of modulus below `10 ^ digits`, whose rows of each kind number at most m
/// and whose columns number at most k, and whose input has at most n bytes, has at most
/// `certificate_room version digits n m k` bytes.
pub fn certificate_texts_are_short()
    ensures { CertificateTextsAreShort }
{}

/// The text of a right certificate of an input that is read has at most 1,451,663,500 bytes, over either field.
pub fn each_certificate_is_below()
    ensures { EachCertificateIsBelow }
{}

/// An equation list has no more equations than bytes, and no more unknowns.
pub fn texts_have_few_names()
    ensures { TextsHaveFewNames }
{}

/// A netlist has no more equations than bytes, and no more unknowns: a device's line is longer than what it adds to them.
pub fn netlists_have_few_names()
    ensures { NetlistsHaveFewNames }
{}
