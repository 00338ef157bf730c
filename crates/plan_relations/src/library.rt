//! Relations and words by their names.

ghost use Rattle.std.specs.Prelude.{◌≡◌, [], OnOk, OnErr, None, Some, MatchOption};
ghost use Rattle.number_relations.specs.Relations.{IsRelation};
ghost use Rattle.word_output.specs.Words.{IsWordValue};
ghost use Rattle.plan_relations.specs.Libraries.{IsRead, with_relation, with_word, relation_named, word_named};

use digit_tuple::faults::OutOfMemory;
use digit_tuple::name::Name;
use number_relations::relation::Relation;
use std::alloc::Global;
use std::marker::Model;
use std::rc::Rc;
use word_output::word::Word;

// A relation, and its name.
#[derive(Drop)]
struct RelationEntry {
    name: Name,
    relation: Rc<Relation>,
}

// A word, and its name.
#[derive(Drop)]
struct WordEntry {
    name: Name,
    word: Rc<Word>,
}

/// The relations that the names of automata mean, and the words of their names. The first of a name
/// counts; an automaton and a word may have one name. A search takes time in proportion to their number.
#[derive(Drop)]
pub struct Library {
    relation_entries: Vec<RelationEntry>,
    word_entries: Vec<WordEntry>,
}

impl Model for Library {
    ghost use Rattle.plan_relations.specs.Libraries.{ReadValue, IsRead};
    ghost use Rattle.plan_relations.specs.LibraryViews.{read_entries};

    ghost Value = { ReadValue };

    ghost view = { λ l. read_entries l.relation_entries.items l.word_entries.items };

    ghost invariant = { λ l. IsRead (read_entries l.relation_entries.items l.word_entries.items) };
}

impl Library {
    /// No relation and no word. It takes no memory.
    pub fn new(alloc: Global) -> Library
        ensures { result ≡ record { relations = []; words = [] } }
    {
        Library {
            relation_entries: Vec::new(alloc),
            word_entries: Vec::new(alloc),
        }
    }

    /// Adds a relation under a name. Out of memory leaves the library as it was.
    pub fn add_relation(
        &mut self,
        alloc: Global,
        name: &Name,
        relation: Rc<Relation>,
    ) -> Result<(), OutOfMemory>
        ensures ok { OnOk result (self.new ≡ record { relations = with_relation self.old.relations name.now relation.value; words = self.old.words }) }
        ensures err { OnErr result (self.new ≡ self.old) }
    {
        let name = name.copy(alloc)?;
        is_relation(relation.as_ref());
        self.relation_entries
            .push(RelationEntry { name, relation })?;
        Ok(())
    }

    /// Adds a word under a name. Out of memory leaves the library as it was.
    pub fn add_word(
        &mut self,
        alloc: Global,
        name: &Name,
        word: Rc<Word>,
    ) -> Result<(), OutOfMemory>
        ensures ok { OnOk result (self.new ≡ record { relations = self.old.relations; words = with_word self.old.words name.now word.value }) }
        ensures err { OnErr result (self.new ≡ self.old) }
    {
        let name = name.copy(alloc)?;
        is_word(word.as_ref());
        self.word_entries.push(WordEntry { name, word })?;
        Ok(())
    }

    /// All are relations and words. A call that does nothing.
    pub fn is_read(&self)
        ensures { IsRead self.now }
    {
        let _ = self.relation_entries.len();
    }

    /// The first relation of a name, if there is one.
    pub fn relation(&self, name: &Name) -> Option<&Rc<Relation>>
        ensures found { MatchOption result (relation_named self.now.relations name.now ≡ None) (λ r. relation_named self.now.relations name.now ≡ Some r.now.value) }
        ensures read { IsRead self.now }
    {
        for entry in &self.relation_entries {
            if entry.name.as_bytes() == name.as_bytes() {
                return Some(&entry.relation);
            }
        }
        None
    }

    /// The first word of a name, if there is one.
    pub fn word(&self, name: &Name) -> Option<&Rc<Word>>
        ensures found { MatchOption result (word_named self.now.words name.now ≡ None) (λ w. word_named self.now.words name.now ≡ Some w.now.value) }
        ensures read { IsRead self.now }
    {
        for entry in &self.word_entries {
            if entry.name.as_bytes() == name.as_bytes() {
                return Some(&entry.word);
            }
        }
        None
    }
}

// A relation is one.
fn is_relation(relation: &Relation)
    ensures { IsRelation relation.now }
{
    let _ = relation.names();
}

// A word is one.
fn is_word(word: &Word)
    ensures { IsWordValue word.now }
{
    let _ = word.function();
}
