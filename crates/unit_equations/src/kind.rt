//! The kinds of units.

ghost use Rattle.std.specs.Prelude.{◌≡◌};
ghost use Rattle.unit_equations.specs.Kinds.{keys_of, kind_beside, kinds};
ghost use Rattle.document_values.specs.Words.{texts};

use crate::version::Version;

/// The kind of a unit.
#[derive(Clone, Copy, Debug, PartialEq, Eq)]
pub enum UnitKind {
    /// Streams come together in one.
    Mixer,
    /// A stream is split, each component by a share that is open.
    Separator,
    /// A reaction changes a stream.
    Reactor,
    /// A stream is split by fractions that are given.
    Tee,
    /// A flow is given.
    Specification,
    /// A heat of some streams.
    Balance,
    /// An open relation between unknowns.
    Relation,
}

impl UnitKind {
    /// The kind of this name.
    pub fn named(word: &str) -> Option<UnitKind>
        ensures { result ≡ kind_beside word.now kinds }
    {
        match word {
            "mixer" => Some(UnitKind::Mixer),
            "separator" => Some(UnitKind::Separator),
            "reactor" => Some(UnitKind::Reactor),
            "tee" => Some(UnitKind::Tee),
            "spec" => Some(UnitKind::Specification),
            "balance" => Some(UnitKind::Balance),
            "relation" => Some(UnitKind::Relation),
            _ => None,
        }
    }

    /// The keys of a unit of this kind beside its name and its kind.
    pub fn keys(self, version: Version) -> &'static [&'static str]
        ensures { texts result.now ≡ keys_of version self }
    {
        match (self, version) {
            (UnitKind::Mixer, _) => &["inlets", "outlet"],
            (UnitKind::Separator, Version::One) => &["inlet", "top", "bottom"],
            (UnitKind::Separator, Version::Two) => &["inlet", "outlets"],
            (UnitKind::Reactor, _) => &["inlet", "outlet", "stoich"],
            (UnitKind::Tee, Version::One) => &["inlet", "first", "second", "fraction"],
            (UnitKind::Tee, Version::Two) => &["inlet", "outlets", "fractions"],
            (UnitKind::Specification, _) => &["stream", "component"],
            (UnitKind::Balance, _) => &["streams"],
            (UnitKind::Relation, _) => &["unknowns"],
        }
    }
}
