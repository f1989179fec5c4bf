//! Bytes that wait for a sink.

ghost use Rattle.std.specs.Prelude.{◌≡◌, [], ◌++◌, MatchBool};

use std::marker::Model;

/// How many bytes may wait.
const SIZE: usize = 4096;

/// Bytes that wait to be handed on, on the caller's stack, seen by contracts as a list.
#[derive(Drop)]
pub(crate) struct Held {
    bytes: [u8; SIZE],
    count: usize,
}

impl Model for Held {
    ghost use Rattle.std.specs.Prelude.{List, ℕ, ◌≤◌, take};

    ghost Value = { List ℕ };

    ghost view = { λ h. take h.count h.bytes };

    ghost invariant = { λ h. h.count ≤ 4096 };
}

impl Held {
    /// No bytes.
    pub(crate) fn new() -> Held
        ensures { result ≡ [] }
    {
        Held {
            bytes: [0; SIZE],
            count: 0,
        }
    }

    /// The bytes, in order.
    pub(crate) fn as_slice(&self) -> &[u8]
        ensures { result.now ≡ self.now }
    {
        &self.bytes[..self.count]
    }

    /// Lets all bytes go.
    pub(crate) fn clear(&mut self)
        ensures { self.new ≡ [] }
    {
        self.count = 0;
    }

    /// Holds the piece too, and answers true, if there is place for it.
    pub(crate) fn hold(&mut self, piece: &[u8]) -> bool
        ensures { MatchBool result (self.new ≡ self.old ++ piece.now) (self.new ≡ self.old) }
    {
        if piece.len() > SIZE - self.count {
            return false;
        }
        let end = self.count + piece.len();
        self.bytes[self.count..end].copy_from_slice(piece);
        self.count = end;
        true
    }
}
