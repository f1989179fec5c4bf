//! What a line format tells its reader.

ghost use Rattle.std.specs.Prelude.{◌≡◌, ℕ, List, map, OnOk};
ghost use Rattle.line_reader.specs.LineRules.{Rules};
ghost use Rattle.line_reader.specs.Answers.{ReadsWords};

use line_lexer::Tokens;
use refusals::Fault;

/// A format of which each line is read by its words, with what was read so far.
pub trait LineFormat: Drop {
    /// Which lines are a comment as a whole, and why another one breaks a rule, if it does: by the words of the lines
    /// before it and its own words.
    ghost rules: { Rules };

    /// These lines, by their words, were read.
    ghost has_read: { Self → List (List (List ℕ)) → Type 0 };

    /// It can read a line more.
    ghost is_ready: { Self → Type 0 };

    /// The sign, if there is one, that makes a line a comment as a whole, with any bytes in it, where it is the line's
    /// first byte that is no blank.
    fn remark_sign() -> Option<u8>
        ensures { result ≡ rules.remark };

    /// Reads the words of the line of this number, or answers which rule it breaks. After a fault nothing is read.
    fn read_line(&mut self, number: u32, words: Tokens<'_>) -> Result<(), Fault>
        requires { is_ready self.old }
        ensures ready { OnOk result (is_ready self.new) }
        ensures read { ReadsWords rules.words has_read number self.old self.new
            (map (λ word. word.1) words.entry) result };
}
