//! The relations and words that are kept.

ghost use Rattle.std.specs.Prelude.{◌≡◌, ◌+◌, ◌<◌, length, map, Ok, IfOk, IfErr, IfSome, IsTrue, MatchOption};
ghost use Rattle.std.specs.Rc.{rc_value};
ghost use Rattle.digit_tuple.specs.declared.step_fault.StepFault.TheVariants.{Memory};
ghost use Rattle.dfa_reading.specs.Headers.{digits_in};
ghost use Rattle.dfa_reading.specs.Reading.{relation_of};
ghost use Rattle.dfa_reading.specs.WordFiles.{IsWordListed, word_of};
ghost use Rattle.num_system.specs.Tracks.{ShareDirection};
ghost use Rattle.word_output.specs.WordReadings.{DoesWord};
ghost use Rattle.definitions.specs.TableSteps.{IsTable, AreForTracks, DoesTable};
ghost use Rattle.kept_tables.specs.KeptTables.{IsRelationOf, IsWordOf, IsRightRelation, IsRightWord, IsNotMade};

use crate::source::Source;
use definitions::table_relation;
use dfa_loading::Loaded;
use digit_tuple::step_fault::StepFault;
use digit_tuple::steps::Steps;
use num_system::system::System;
use number_relations::relation::Relation;
use std::alloc::Global;
use std::marker::Model;
use std::rc::Rc;
use step_lines::add_lines;
use word_output::word::Word;
use word_output::word_reading::read_word_steps;

/// The most relations and words that are kept.
const MOST: usize = 256;

/// A relation, and what it was made of.
#[derive(Drop)]
struct KeptRelation {
    source: Source,
    relation: Rc<Relation>,
}

/// A word, and what it was made of.
#[derive(Drop)]
struct KeptWord {
    source: Source,
    word: Rc<Word>,
}

/// The relations and words that the tables of files made before, and how often one of them was used again. A search compares the
/// name of the file with each name, and the text with the texts under it. At most 256 are kept.
#[derive(Drop)]
pub struct KeptTables {
    relations: Vec<KeptRelation>,
    words: Vec<KeptWord>,
    uses: u64,
}

impl Model for KeptTables {
    ghost use Rattle.std.specs.Prelude.{ℕ};
    ghost use Rattle.kept_tables.specs.KeptTables.{AreRight};

    ghost Value = { ℕ };

    ghost view = { λ k. k.uses };

    ghost invariant = { λ k. AreRight k.relations.items k.words.items };
}

impl KeptTables {
    /// Nothing so far. It takes no memory.
    pub fn new(alloc: Global) -> Self {
        KeptTables {
            relations: Vec::new(alloc),
            words: Vec::new(alloc),
            uses: 0,
        }
    }

    /// How often a relation or a word was used again. The count stays at its type's greatest value.
    pub fn reused(&self) -> u64
        ensures { result ≡ self.now }
    {
        self.uses
    }

    /// The relation of an automaton's table over these systems, as `definitions::table_relation` makes it, with its steps as the
    /// next ones: the one that is kept, or else a new one, which is then kept.
    ///
    /// # Errors
    /// `Letters` and `States` exactly at the first step that passes a limit, with its number; `Memory`.
    pub fn relation(
        &mut self,
        alloc: Global,
        table: &Loaded,
        systems: &[Rc<System>],
        steps: &mut Steps,
    ) -> Result<Rc<Relation>, StepFault>
        requires text { relation_of table.now.text ≡ Ok table.now.listed }
        requires table { IsTable table.now.listed }
        requires systems { AreForTracks table.now.listed.header (map rc_value systems.now) }
        ensures made { IfOk result (λ r. DoesTable (map rc_value systems.now) table.now.listed steps.old (Ok r.value) steps.new) }
        ensures refused { IfErr result (λ fault. IsNotMade (DoesTable (map rc_value systems.now) table.now.listed) steps.old fault steps.new) }
    {
        if let Some(relation) = self.relation_again(table, systems, steps)? {
            return Ok(relation);
        }
        let before = steps.count();
        let made = table_relation(alloc, &table.listed, systems, steps)?;
        let relation = Rc::new(alloc, made)?;
        if let Ok(source) = Source::of(alloc, table, systems, steps, before) {
            self.keep_relation(source, &relation);
        }
        Ok(relation)
    }

    /// The word of a word's table over these systems, as `word_output::read_word_steps` makes it, with its steps as the next ones:
    /// the one that is kept, or else a new one, which is then kept.
    ///
    /// # Errors
    /// `Letters` and `States` exactly at the first step that passes a limit, with its number; `Memory`.
    pub fn word(
        &mut self,
        alloc: Global,
        table: &Loaded,
        systems: &[Rc<System>],
        steps: &mut Steps,
    ) -> Result<Rc<Word>, StepFault>
        requires text { word_of table.now.text ≡ Ok table.now.listed }
        requires states { 0 < length table.now.listed.outputs }
        requires word { IsWordListed table.now.listed }
        requires tracks { length systems.now ≡ length (digits_in table.now.listed.header) }
        requires direction { ShareDirection (map rc_value systems.now) }
        ensures made { IfOk result (λ w. DoesWord (map rc_value systems.now) table.now.listed steps.old (Ok w.value) steps.new) }
        ensures refused { IfErr result (λ fault. IsNotMade (DoesWord (map rc_value systems.now) table.now.listed) steps.old fault steps.new) }
    {
        if let Some(word) = self.word_again(table, systems, steps)? {
            return Ok(word);
        }
        let before = steps.count();
        let made = read_word_steps(alloc, &table.listed, systems, steps)?;
        let word = Rc::new(alloc, made)?;
        if let Ok(source) = Source::of(alloc, table, systems, steps, before) {
            self.keep_word(source, &word);
        }
        Ok(word)
    }

    /// The relation of a table that is kept, if one is, with the lines of its steps as the next ones.
    fn relation_again(
        &mut self,
        table: &Loaded,
        systems: &[Rc<System>],
        steps: &mut Steps,
    ) -> Result<Option<Rc<Relation>>, StepFault>
        requires { relation_of table.now.text ≡ Ok table.now.listed }
        ensures made { IfOk result (λ found. MatchOption found (steps.new ≡ steps.old) (λ r. DoesTable (map rc_value systems.now) table.now.listed steps.old (Ok r.value) steps.new)) }
        ensures refused { IfErr result (λ fault. fault ≡ Memory) }
    {
        let Some(kept) = self.kept_relation(table, systems, steps.limit()) else {
            return Ok(None);
        };
        let relation = kept.relation.clone()?;
        add_lines(steps, &kept.source.lines)?;
        self.uses = self.uses.saturating_add(1);
        Ok(Some(relation))
    }

    /// The word of a table that is kept, if one is, with the lines of its steps as the next ones.
    fn word_again(
        &mut self,
        table: &Loaded,
        systems: &[Rc<System>],
        steps: &mut Steps,
    ) -> Result<Option<Rc<Word>>, StepFault>
        requires { word_of table.now.text ≡ Ok table.now.listed }
        ensures made { IfOk result (λ found. MatchOption found (steps.new ≡ steps.old) (λ w. DoesWord (map rc_value systems.now) table.now.listed steps.old (Ok w.value) steps.new)) }
        ensures refused { IfErr result (λ fault. fault ≡ Memory) }
    {
        let Some(kept) = self.kept_word(table, systems, steps.limit()) else {
            return Ok(None);
        };
        let word = kept.word.clone()?;
        add_lines(steps, &kept.source.lines)?;
        self.uses = self.uses.saturating_add(1);
        Ok(Some(word))
    }

    /// The relation that was made of this table over these systems, under this limit, if it is kept.
    fn kept_relation(
        &self,
        table: &Loaded,
        systems: &[Rc<System>],
        limit: u32,
    ) -> Option<&KeptRelation>
        ensures { IfSome result (λ kept. IsRelationOf kept.now.source kept.now.relation.value table.now.text (map rc_value systems.now) limit) }
    {
        for kept in &self.relations {
            if kept.source.is_of(table, systems, limit) {
                return Some(kept);
            }
        }
        None
    }

    /// The word that was made of this table over these systems, under this limit, if it is kept.
    fn kept_word(&self, table: &Loaded, systems: &[Rc<System>], limit: u32) -> Option<&KeptWord>
        ensures { IfSome result (λ kept. IsWordOf kept.now.source kept.now.word.value table.now.text (map rc_value systems.now) limit) }
    {
        for kept in &self.words {
            if kept.source.is_of(table, systems, limit) {
                return Some(kept);
            }
        }
        None
    }

    /// Keeps a relation, unless so many are kept as may be, or memory runs out.
    fn keep_relation(&mut self, source: Source, relation: &Rc<Relation>)
        requires { IsRightRelation source relation.now.value }
    {
        if has_room(self.relations.len(), self.words.len()) {
            if let Ok(relation) = relation.clone() {
                let _pushed = self.relations.push(KeptRelation { source, relation });
            }
        }
    }

    /// Keeps a word, unless so many are kept as may be, or memory runs out.
    fn keep_word(&mut self, source: Source, word: &Rc<Word>)
        requires { IsRightWord source word.now.value }
    {
        if has_room(self.words.len(), self.relations.len()) {
            if let Ok(word) = word.clone() {
                let _pushed = self.words.push(KeptWord { source, word });
            }
        }
    }
}

/// Whether one more may be kept beside so many, and so many of the other kind.
fn has_room(kept: usize, others: usize) -> bool
    ensures { IsTrue result → kept + others < 256 }
{
    kept < MOST && others < MOST - kept
}
