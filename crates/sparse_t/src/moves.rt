//! Numbers in lists that move by one where a number before them comes or goes.

ghost use Rattle.std.specs.Prelude.{◌≡◌, ◌<◌, ℕ, length, map, slice_index};
ghost use Rattle.limits.specs.Limits.{column_limit};
ghost use Rattle.linear_algebra.specs.Parts.{skip, unskip};
ghost use Rattle.sparse_t.specs.Lists.{AreAllBelow};

/// Makes each number from `at` on greater by one.
pub fn raise(numbers: &mut [u32], at: usize)
    requires small { AreAllBelow column_limit numbers.old }
    ensures { numbers.new ≡ map (skip at) numbers.old }
{
    for number in numbers.iter_mut() {
        *number = raised(*number, at);
    }
}

/// Makes each number after `at` smaller by one.
pub fn lower(numbers: &mut [u32], at: usize)
    ensures { numbers.new ≡ map (unskip at) numbers.old }
{
    for number in numbers.iter_mut() {
        *number = lowered(*number, at);
    }
}

fn raised(number: u32, at: usize) -> u32
    requires { number < column_limit }
    ensures { result ≡ skip at number }
{
    if (number as usize) < at {
        number
    } else {
        number + 1
    }
}

fn lowered(number: u32, at: usize) -> u32
    ensures { result ≡ unskip at number }
{
    if number as usize > at {
        number - 1
    } else {
        number
    }
}
