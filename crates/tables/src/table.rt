// A list of at most N entries in an array.
ghost use Rattle.std.specs.Prelude.{◌≡◌, ◌≤◌, length};

mod ops;

// The entries are the first `len` slots.
#[derive(Drop)]
pub struct Table<T, const N: usize> {
    slots: [T; N],
    len: usize,
    ghost within: { len ≤ length slots },
    ghost whole: { length slots ≡ N },
}

// There is no room for what was to be placed.
#[derive(Clone, Copy)]
pub struct Full;
