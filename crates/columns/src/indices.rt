//! The least over indices, and arrays by index.
ghost use Rattle.std.specs.Prelude.{◌≡◌, ℕ, ◌<◌, ◌≤◌, length, slice_index_or};
ghost use Rattle.columns.specs.Pairs.{min_below};

use crate::stored::BARRED;

// The least of f(0) to f(n - 1); of nothing the number that stands for barred.
pub(crate) fn least_below<F: Fn(usize) -> u32>(n: usize, f: F) -> u32
    requires { (i : ℕ) → i < n → F.pre f i }
    ensures { (g : ℕ → ℕ) → ((i r : ℕ) → i < n → F.post f i r → r ≡ g i) → result ≡ min_below n g }
{
    let mut least = BARRED;
    for i in 0..n {
        least = least.min(f(i));
    }
    least
}

// An array with f(i) in each of its first n elements, and a value in the others.
pub(crate) fn filled<T: Copy, const N: usize, F: Fn(usize) -> T>(n: usize, rest: T, f: F) -> [T; N]
    requires room { n ≤ N }
    requires callable { (i : ℕ) → i < n → F.pre f i }
    ensures long { length result ≡ N }
    ensures front { (d : T) (i : ℕ) → i < n → F.post f i (slice_index_or result i d) }
    ensures others { (d : T) (i : ℕ) → n ≤ i → i < N → slice_index_or result i d ≡ rest }
{
    let mut list = [rest; N];
    for (i, element) in list[..n].iter_mut().enumerate() {
        *element = f(i);
    }
    list
}
