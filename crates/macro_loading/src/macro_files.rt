//! The macros that are in a store, read as their names are met.

ghost use Rattle.std.specs.Prelude.{◌≡◌, None};
ghost use Rattle.std.specs.FinMap as map;
ghost use Rattle.std.proofs.Common.{refl, ◌∙◌};
ghost use Rattle.macro_expand.specs.Texts.{text_in};
ghost use Rattle.macro_loading.specs.Reading.{GoesOn, Stops, IsStill, goes_on_then, stops_then, still_then};

use digit_tuple::faults::OutOfMemory;
use digit_tuple::name::Name;
use macro_expand::{MacroTexts, Macros};
use std::alloc::Global;
use wal_outside::{Folder, Found, Store};

/// Why no text was found under a name.
#[derive(Clone, Copy)]
pub(crate) enum Want {
    /// Nothing is there.
    Absent,
    /// The text that is there is too long to be read.
    TooLong,
    /// The store failed there.
    Failed,
}

/// The macros of a store: those that were read so far, and why the last one was not found, if it was not. Nothing is read
/// from then on.
pub(crate) struct MacroFiles<'s, T> {
    pub alloc: Global,
    pub store: &'s mut T,
    pub texts: Macros,
    pub want: Option<Want>,
}

impl<'s, T: Store> MacroFiles<'s, T> {
    /// Those of this store, of which none was read.
    pub(crate) fn new(alloc: Global, store: &'s mut T) -> MacroFiles<'s, T>
        ensures same_store { result.store.ghost_name ≡ store.entry.ghost_name }
        ensures store { result.store.now ≡ store.old }
        ensures texts { result.texts ≡ map.empty }
        ensures want { result.want ≡ None }
    {
        MacroFiles {
            alloc,
            store,
            texts: Macros::new(alloc),
            want: None,
        }
    }
}

impl<T: Store> MacroTexts for MacroFiles<'_, T> {
    ghost found = { λ s. text_in s.texts };

    ghost becomes = { λ a b. (b.store.ghost_name ≡ a.store.ghost_name) × GoesOn (record { store = T.view a.store.now; texts = a.texts; want = a.want }) (record { store = T.view b.store.now; texts = b.texts; want = b.want }) × IsStill (record { store = T.view a.store.now; texts = a.texts; want = a.want }) (record { store = T.view b.store.now; texts = b.texts; want = b.want }) };

    ghost lacks = { λ a name b. (b.store.ghost_name ≡ a.store.ghost_name) × Stops (record { store = T.view a.store.now; texts = a.texts; want = a.want }) name (record { store = T.view b.store.now; texts = b.texts; want = b.want }) × IsStill (record { store = T.view a.store.now; texts = a.texts; want = a.want }) (record { store = T.view b.store.now; texts = b.texts; want = b.want }) };

    ghost stays = { λ a. (refl, λ ready. (ready, refl), λ want e. refl) };

    ghost goes_on = { λ a b c first second. (second.0 ∙ first.0, goes_on_then first.1 second.1, still_then first.2 second.2) };

    ghost lacks_then = { λ a b c name first second. (second.0 ∙ first.0, stops_then first.1 second.1, still_then first.2 second.2) };

    fn find(&mut self, name: &Name) -> Result<(), OutOfMemory> {
        if self.want.is_some() || self.texts.text_of(name.as_bytes()).is_some() {
            return Ok(());
        }
        let mut text = Vec::new(self.alloc);
        let want = match self.store.read(Folder::Macros, name.as_str(), &mut text) {
            Found::Found => return self.texts.add(name.as_bytes(), &text),
            Found::Memory => return Err(OutOfMemory),
            Found::Absent => Want::Absent,
            Found::TooLong => Want::TooLong,
            Found::Failed => Want::Failed,
        };
        self.want = Some(want);
        Ok(())
    }

    fn text_of(&self, name: &Name) -> Option<&[u8]> {
        self.texts.text_of(name.as_bytes())
    }
}
