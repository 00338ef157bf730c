//! Relations in a list, each with its letter.

ghost use Rattle.std.specs.Prelude.{◌≡◌};
ghost use Rattle.std.specs.List.{All};
ghost use Rattle.number_relations.specs.Relations.{IsRelation};
ghost use Rattle.combinations.specs.Parts.{PartValue};

use number_relations::relation::Relation;
use std::marker::Model;
use std::rc::Rc;

/// A relation, and the letter of the numbers of which it is the first to hold.
#[derive(Drop)]
pub struct Part {
    shared_relation: Rc<Relation>,
    letter: i32,
}

impl Model for Part {
    ghost use Rattle.combinations.specs.Parts.{PartValue};

    ghost Value = { PartValue };

    ghost view = { λ p. record { relation = p.shared_relation.value; value = p.letter } };
}

impl Part {
    /// This relation with this letter. It takes no memory.
    pub fn new(relation: Rc<Relation>, value: i32) -> Part
        ensures { result ≡ record { relation = relation.value; value = value } }
    {
        Part {
            shared_relation: relation,
            letter: value,
        }
    }

    /// The relation.
    pub fn relation(&self) -> &Relation
        ensures value { result.now ≡ self.now.relation }
        ensures relation { IsRelation self.now.relation }
    {
        let relation = self.shared_relation.as_ref();
        let _names = relation.names();
        relation
    }

    /// The letter.
    pub fn value(&self) -> i32
        ensures { result ≡ self.now.value }
    {
        self.letter
    }
}

// What is listed are relations. It does nothing.
pub(crate) fn are_relations(parts: &[Part])
    ensures { All (λ (part : PartValue). IsRelation part.relation) parts.now }
{
    for part in parts {
        let _relation = part.relation();
    }
}
