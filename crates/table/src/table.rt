// What the ordered table holds.
mod calls;
mod make;

ghost use Rattle.std.specs.Prelude.{◌≤◌, length};

// A table over places that the caller lends. Its elements are the first `len` of them. Every call goes at most once
// through the elements, and none allocates.
#[derive(Drop)]
pub struct Table<'a, E> {
    places: &'a mut [E],
    len: usize,
    ghost within: { len ≤ length places.now },
}
