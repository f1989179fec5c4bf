//! Numbers that move by one where a number before them comes or goes.

ghost use Rattle.std.specs.Prelude.{◌≡◌, ◌<◌, ◌^◌, ℕ, Some, None, IfSome, slice_index_or};
ghost use Rattle.std.specs.Option.{option_map};
ghost use Rattle.linear_algebra.specs.Parts.{skip, unskip};
ghost use Rattle.number_pairs.specs.Pairs.{all_moved};

/// Makes each number from `at` on greater by one.
pub fn raise(numbers: &mut [Option<usize>], at: usize)
    requires small { (k i : ℕ) → slice_index_or numbers.old k None ≡ Some i → i < 2 ^ 63 }
    ensures { numbers.new ≡ all_moved (skip at) numbers.old }
{
    for number in numbers.iter_mut() {
        *number = raised(*number, at);
    }
}

/// Makes each number after `at` smaller by one.
pub fn lower(numbers: &mut [Option<usize>], at: usize)
    ensures { numbers.new ≡ all_moved (unskip at) numbers.old }
{
    for number in numbers.iter_mut() {
        *number = lowered(*number, at);
    }
}

fn raised(number: Option<usize>, at: usize) -> Option<usize>
    requires { IfSome number (λ n. n < 2 ^ 63) }
    ensures { result ≡ option_map (skip at) number }
{
    match number {
        Some(n) if n >= at => Some(n + 1),
        _ => number,
    }
}

fn lowered(number: Option<usize>, at: usize) -> Option<usize>
    ensures { result ≡ option_map (unskip at) number }
{
    match number {
        Some(n) if n > at => Some(n - 1),
        _ => number,
    }
}
