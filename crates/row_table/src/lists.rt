//! Lists in which numbers are moved, and items put in.

ghost use Rattle.std.specs.Prelude.{◌≡◌, ◌<◌, ◌≤◌, ◌^◌, cond, eqb, map, vec_len, vec_capacity};
ghost use Rattle.std.specs.List.{All, insert};
ghost use Rattle.linear_algebra.specs.Parts.{skip, unskip};

// Makes each number from `at` on greater by one.
pub(crate) fn raise(numbers: &mut [usize], at: usize)
    requires { All (λ n. n < 2 ^ 63) numbers.old }
    ensures { numbers.new ≡ map (skip at) numbers.old }
{
    for number in numbers.iter_mut() {
        *number = raised(*number, at);
    }
}

// Makes each number after `at` smaller by one.
pub(crate) fn lower(numbers: &mut [usize], at: usize)
    ensures { numbers.new ≡ map (unskip at) numbers.old }
{
    for number in numbers.iter_mut() {
        *number = lowered(*number, at);
    }
}

// Puts `new` in the place of each number that is `old`.
pub(crate) fn replace(numbers: &mut [usize], old: usize, new: usize)
    ensures { numbers.new ≡ map (λ n. cond (eqb n old) new n) numbers.old }
{
    for number in numbers.iter_mut() {
        *number = replaced(*number, old, new);
    }
}

fn raised(number: usize, at: usize) -> usize
    requires { number < 2 ^ 63 }
    ensures { result ≡ skip at number }
{
    if number < at { number } else { number + 1 }
}

fn lowered(number: usize, at: usize) -> usize
    ensures { result ≡ unskip at number }
{
    if number <= at { number } else { number - 1 }
}

fn replaced(number: usize, old: usize, new: usize) -> usize
    ensures { result ≡ cond (eqb number old) new number }
{
    if number == old { new } else { number }
}

// Puts an item in, for which there is room.
pub(crate) fn put_in<T: Copy>(list: &mut Vec<T>, at: usize, item: T)
    requires at { at ≤ vec_len list.old }
    requires room { vec_len list.old < vec_capacity list.old }
    ensures items { list.new.items ≡ insert list.old.items at item }
    ensures capacity { vec_capacity list.old ≤ vec_capacity list.new }
{
    let _ = list.insert(at, item);
}
