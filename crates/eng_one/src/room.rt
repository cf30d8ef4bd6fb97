//! Vectors that never grow past the room that they were made with.
ghost use Rattle.std.specs.Prelude.{◌≡◌, ◌<◌, ◌≤◌, ◌++◌, ◌∷◌, [], vec_len, vec_capacity, replicate};

// So many of one item, and nothing else, in a vector with room for them.
pub(crate) fn refill<T: Copy + Drop>(items: &mut Vec<T>, item: T, count: u32)
    requires { count ≤ vec_capacity items.old }
    ensures items { items.new.items ≡ replicate count item }
    ensures room { vec_capacity items.old ≤ vec_capacity items.new }
{
    items.clear();
    let filled = items.resize(count as usize, item).is_ok();
    prove!(filled);
}

// Appends to a vector with room to spare.
pub(crate) fn append<T: Copy + Drop>(items: &mut Vec<T>, item: T)
    requires { vec_len items.old < vec_capacity items.old }
    ensures items { items.new.items ≡ items.old.items ++ item ∷ [] }
    ensures room { vec_capacity items.old ≤ vec_capacity items.new }
{
    items.push_reserved(item);
}
