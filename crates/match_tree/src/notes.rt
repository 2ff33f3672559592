// What a walk notes of its way.
ghost use Rattle.std.specs.Prelude.{◌≤◌, ◌<◌, ◌++◌, ◌∷◌, ◌≡◌, ℕ, List, [], length, vec_capacity};

use crate::slots::Slots;

// What is noted of the nodes that a walk passes.
pub(crate) trait Notes {
    // These nodes were passed, or nothing is noted of them.
    ghost tell: { Self → List ℕ → Type 0 };

    // There is room for so many nodes.
    ghost have_room: { Self → ℕ → Type 0 };

    // Notes one node more.
    fn pass(&mut self, place: u32)
        requires { (path : List ℕ) × (most : ℕ) × tell self.old path × have_room self.old most
            × (length path < most) }
        ensures path { (path : List ℕ) → tell self.old path
            → tell self.new (path ++ place ∷ []) }
        ensures room { (most : ℕ) → have_room self.old most → have_room self.new most };
}

impl Notes for Slots {
    ghost tell = { λ slots path. slots.path.items ≡ path };

    ghost have_room = { λ slots most. most ≤ vec_capacity slots.path };

    fn pass(&mut self, place: u32) {
        match self.path.push(place) {
            Ok(()) => {}
            Err(_) => unreachable!(),
        }
    }
}

// No notes.
#[derive(Drop)]
pub(crate) struct Unnoted;

impl Notes for Unnoted {
    ghost tell = { λ _ _. Unit {0} };

    ghost have_room = { λ _ _. Unit {0} };

    fn pass(&mut self, _place: u32) {}
}
