//! What the names of the formulas mean.

ghost use Rattle.std.specs.Prelude.{◌≡◌, length, IfOk};
ghost use Rattle.word_images.specs.ImageWords.{IsMapped};
ghost use Rattle.word_commands.specs.LetterSettings.{IsSetting};

use digit_tuple::faults::OutOfMemory;
use digit_tuple::name::Name;
use formula_build::Names;
use formula_resolve::Headers;
use morph_words::Morphism;
use named_systems::NamedSystems;
use plan_relations::Library;
use std::alloc::Global;
use std::rc::Rc;
use word_images::image_formula::word_name;
use word_images::recoded;
use word_output::word::Word;

/// The names of the formulas of letters, and what they mean.
#[derive(Drop)]
pub struct Setting {
    /// The headers of the words, and the system.
    pub names: Names,
    /// The words.
    pub words: Library,
}

impl Setting {
    /// The words of all positions of the images of a word, which are so many, over its system. Time and memory follow
    /// the states of the word times their number.
    pub fn new(
        alloc: Global,
        morphism: &Morphism,
        word: &Word,
        system: &Name,
        places: usize,
    ) -> Result<Setting, OutOfMemory>
        requires mapped { IsMapped morphism.now word.now places }
        requires track { length word.now.systems ≡ 1 }
        ensures { IfOk result (IsSetting morphism.now word.now system.now places) }
    {
        let mut systems = NamedSystems::new(alloc);
        systems.add(alloc, system, word.systems()[0].clone()?)?;
        let mut tracks = Vec::new(alloc);
        tracks.push(system.copy(alloc)?)?;
        let mut headers = Headers::new(alloc);
        let mut words = Library::new(alloc);
        for place in 0..places {
            let name = word_name(alloc, place)?;
            let recoded = recoded(alloc, morphism, place, word)?;
            headers.add_word(&name, &tracks)?;
            words.add_word(alloc, &name, Rc::new(alloc, recoded)?)?;
        }
        let names = Names { headers, systems };
        Ok(Setting { names, words })
    }
}
