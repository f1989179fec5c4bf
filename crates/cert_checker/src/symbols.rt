//! Whether printed rows of symbols are those of a pattern.

ghost use Rattle.std.specs.Prelude.{◌≡◌, ◌<◌, ◌≤◌, ◌↔◌, ℕ, IsTrue, length};
ghost use Rattle.sparse_t.specs.Incidences.{incidence_rows};
ghost use Rattle.cert_text.specs.Ranges.{IsPattern};
ghost use Rattle.cert_checker.specs.Matching.{HasRowsOf, HasSymbolsOf};

use cert_text::Items;
use sparse_t::Pattern;

// Whether two lists hold the same numbers in the same order.
fn same_numbers(a: &[usize], b: &[u32]) -> bool
    ensures { IsTrue result ↔ (a.now ≡ b.now) }
{
    if a.len() != b.len() {
        return false;
    }
    for k in 0..a.len() {
        if a[k] != b[k] as usize {
            return false;
        }
    }
    true
}

// Whether the printed rows are those of the pattern.
fn has_rows_of(rows: &[Items<usize>], t: &Pattern) -> bool
    requires { length rows.now ≡ incidence_rows t.now }
    ensures { IsTrue result ↔ HasRowsOf t.now rows.now (incidence_rows t.now) }
{
    for i in 0..rows.len() {
        if !same_numbers(rows[i].as_slice(), t.row(i)) {
            return false;
        }
    }
    true
}

/// Whether the printed rows have the symbols of the pattern.
pub fn has_symbols(rows: &[Items<usize>], t: &Pattern) -> bool
    requires { IsPattern (incidence_rows t.now) t.now.width rows.now }
    ensures { IsTrue result ↔ HasSymbolsOf t.now rows.now }
{
    t.is_pattern();
    has_rows_of(rows, t)
}
