//! Moves of entries from one list to another.

ghost use Rattle.std.specs.Prelude.{◌≡◌, ◌+◌, ◌≤◌, take, drop, vec_len, vec_capacity};

/// Moves the entries from a place on to an empty list that has room for them.
pub fn move_back<T>(from: &mut Vec<T>, at: usize, to: &mut Vec<T>)
    requires within { at ≤ vec_len from.old }
    requires empty { vec_len to.old ≡ 0 }
    requires space { vec_len from.old ≤ at + vec_capacity to.old }
    ensures front { from.new.items ≡ take at from.old.items }
    ensures back { to.new.items ≡ drop at from.old.items }
    ensures from_len { vec_len from.new ≡ at }
    ensures to_len { vec_len to.new + at ≡ vec_len from.old }
    ensures from_capacity { vec_capacity from.new ≡ vec_capacity from.old }
    ensures to_capacity { vec_capacity to.old ≤ vec_capacity to.new }
{
    'moves: while at < from.len() {
        if let Some(entry) = from.pop() {
            to.push(entry).unwrap();
        }
    }
    to.reverse();
}
