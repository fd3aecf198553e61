//! The first elements of a list, in fixed memory.
#![tactic(auto)]

ghost use Rattle.std.specs.Prelude.{◌≡◌, ◌≤◌, length};

mod list;

/// The first elements of a list that is built up, at most `N` of them, which lie in the value itself. What comes past them is not held.
#[derive(Copy)]
pub struct Prefix<T: Copy, const N: usize> {
    cells: [T; N],
    len: usize,
    ghost room: { length cells ≡ N },
    ghost few: { len ≤ N },
}
