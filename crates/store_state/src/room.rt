//! Vectors that have room: they grow without memory.

ghost use Rattle.std.specs.Prelude.{◌≡◌, ◌≤◌, ◌+◌, ◌++◌, ◌∷◌, [], length};
ghost use Rattle.std.specs.Vec.{vec_len, vec_capacity};
ghost use Rattle.store_state.specs.Edited.{one_of};

// Adds an item that there is room for.
pub(crate) fn put<T: Copy>(list: &mut Vec<T>, item: T)
    requires { vec_len list.now + 1 ≤ vec_capacity list.now }
    ensures items { list.new.items ≡ list.old.items ++ item ∷ [] }
    ensures len { vec_len list.new ≡ vec_len list.old + 1 }
    ensures room { vec_capacity list.old ≤ vec_capacity list.new }
{
    match list.push(item) {
        Ok(()) => {}
        Err(_) => prove!(false),
    }
}

// Adds an item that there is room for, if there is one.
pub(crate) fn put_some<T: Copy>(list: &mut Vec<T>, item: Option<T>)
    requires { vec_len list.now + length (one_of item) ≤ vec_capacity list.now }
    ensures { list.new.items ≡ list.old.items ++ one_of item }
{
    if let Some(item) = item {
        put(list, item);
    }
}

// Makes it the list of these items, that there is room for.
pub(crate) fn fill<T: Copy>(list: &mut Vec<T>, items: &[T])
    requires { length items.now ≤ vec_capacity list.now }
    ensures items { list.new.items ≡ items.now }
    ensures len { vec_len list.new ≡ length items.now }
    ensures room { vec_capacity list.old ≤ vec_capacity list.new }
{
    list.clear();
    match list.extend_from_slice(items) {
        Ok(()) => {}
        Err(_) => prove!(false),
    }
}
