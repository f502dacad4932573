//! What the entries of a text are gathered in.
ghost use Rattle.std.specs.Prelude.{◌≡◌, ◌<◌, ◌^◌, ◌++◌, ◌∷◌, [], List, length, OnOk, ⊤};

use crate::fault::NoMemory;

/// A list that the entries of a text are appended to, in whatever form it keeps them.
pub trait Entries<E> {
    // The entries, in their order.
    ghost listed: { Self → List E };

    // The entries that it can keep.
    ghost fits: { E → Type 0 };

    /// Appends an entry. No list is ever as long as there are numbers for records.
    fn append(&mut self, entry: E) -> Result<(), NoMemory>
        requires { fits entry }
        ensures items { OnOk result (listed self.new ≡ listed self.old ++ entry ∷ []) }
        ensures bounded { OnOk result (length (listed self.new) < 2 ^ 63) };
}

impl<E: Copy> Entries<E> for Vec<E> {
    ghost listed = { λ v. v.items };

    ghost fits = { λ entry. ⊤ };

    fn append(&mut self, entry: E) -> Result<(), NoMemory> {
        match self.push(entry) {
            Ok(()) => Ok(()),
            Err(_) => Err(NoMemory),
        }
    }
}
