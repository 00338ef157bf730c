//! What comes before the next operand of a formula (operands with their connectives, chains with a `=>`, and
//! implications with a `<=>`), and before the next factor of a term.

ghost use Rattle.std.specs.Prelude.{◌≡◌, min, true, false, [], IfOk};
ghost use Rattle.formula_parse.specs.Flaws as flaws;
ghost use Rattle.formula_parse.specs.Made.{trees};
ghost use Rattle.formula_parse.specs.Trees.{no_addends, no_factors};
ghost use Rattle.formula_parse.specs.Machine as machine;
ghost use Rattle.formula_parse.specs.Views.{formula_view, factors_view, addends_view};
ghost use Rattle.formula_parse.specs.StateViews.{chain_sign_view, prefix_view, body_view, outers_view, role_view, product_view};
ghost use Rattle.formula_parse.specs.Stops.{IsInside};

use crate::fault::Stop;
use crate::flaw::{Came, Product};
use crate::making::{chained, with_operand};
use crate::state::{Before, Body, LIMIT, Nest, Prefix, Reading, Role, Sum};
use crate::token::ChainSign;
use crate::tree::{Connective, Formula};
use digit_tuple::faults::OutOfMemory;
use std::alloc::Global;

impl Prefix {
    /// Nothing, in a formula of this nesting.
    pub fn empty(alloc: Global, base: u8) -> Prefix
        ensures prefix { prefix_view result ≡ machine.empty_prefix trees }
        ensures base { result.base ≡ base }
    {
        Prefix {
            base,
            implications: Vec::new(alloc),
            chains: Vec::new(alloc),
            operands: Vec::new(alloc),
            came: Came::none(),
            implied: false,
        }
    }

    /// The whole formula, with its last operand.
    pub fn whole(self, alloc: Global, last: Formula) -> Result<Formula, OutOfMemory>
        ensures { IfOk result (λ f. formula_view f ≡ machine.whole trees (prefix_view self) (formula_view last)) }
    {
        let chain = chained(alloc, self.operands, last)?;
        let implication = chained(alloc, self.chains, chain)?;
        chained(alloc, self.implications, implication)
    }

    /// With one more operand, and the connective after it.
    pub fn connected(self, operand: Formula, sign: ChainSign) -> Result<Prefix, OutOfMemory>
        ensures prefix { IfOk result (λ f. prefix_view f ≡ record (prefix_view self) {
          operands = trees.operands (prefix_view self).operands (formula_view operand) (chain_sign_view sign) 0;
          came = flaws.came_next (chain_sign_view sign) (prefix_view self).came;
        }) }
        ensures base { IfOk result (λ f. f.base ≡ self.base) }
    {
        let operands = with_operand(self.operands, operand, sign.connective())?;
        let came = self.came.next(sign);
        Ok(Prefix {
            base: self.base,
            implications: self.implications,
            chains: self.chains,
            operands,
            came,
            implied: self.implied,
        })
    }

    /// With the chain that an operand ends, and a `=>` after it.
    pub fn implied(self, alloc: Global, operand: Formula) -> Result<Prefix, OutOfMemory>
        ensures prefix { IfOk result (λ f. prefix_view f ≡ record {
          implications = (prefix_view self).implications;
          chains = trees.chains (prefix_view self).chains (prefix_view self).operands (formula_view operand) 0;
          operands = trees.no_operands;
          came = flaws.none_came;
          implied = true;
        }) }
        ensures base { IfOk result (λ f. f.base ≡ self.base) }
    {
        let chain = chained(alloc, self.operands, operand)?;
        let chains = with_operand(self.chains, chain, Connective::Implies)?;
        Ok(Prefix {
            base: self.base,
            implications: self.implications,
            chains,
            operands: Vec::new(alloc),
            came: Came::none(),
            implied: true,
        })
    }

    /// With the implication that an operand ends, and a `<=>` after it.
    pub fn equated(self, alloc: Global, operand: Formula) -> Result<Prefix, OutOfMemory>
        ensures prefix { IfOk result (λ f. prefix_view f ≡ record {
          implications = trees.implications (prefix_view self).implications (prefix_view self).chains (prefix_view self).operands (formula_view operand);
          chains = trees.no_chains;
          operands = trees.no_operands;
          came = flaws.none_came;
          implied = false;
        }) }
        ensures base { IfOk result (λ f. f.base ≡ self.base) }
    {
        let chain = chained(alloc, self.operands, operand)?;
        let implication = chained(alloc, self.chains, chain)?;
        let implications = with_operand(self.implications, implication, Connective::Iff)?;
        Ok(Prefix {
            base: self.base,
            implications,
            chains: Vec::new(alloc),
            operands: Vec::new(alloc),
            came: Came::none(),
            implied: false,
        })
    }
}

impl Before {
    /// Nothing.
    fn nothing(alloc: Global) -> Before
        ensures tildes { result.tildes.items ≡ [] }
        ensures marks { result.marks.items ≡ [] }
    {
        Before {
            tildes: Vec::new(alloc),
            marks: Vec::new(alloc),
        }
    }
}

impl Body {
    /// A formula of this nesting of which nothing has come.
    pub fn fresh(alloc: Global, base: u8) -> Body
        ensures { body_view result ≡ machine.fresh trees base }
    {
        Body {
            prefix: Prefix::empty(alloc, base),
            before: Before::nothing(alloc),
            touched: false,
        }
    }

    /// A formula with a prefix, where an operand comes.
    pub fn with_prefix(alloc: Global, prefix: Prefix) -> Body
        ensures { body_view result ≡ machine.with_prefix trees (machine.fresh trees prefix.base) (prefix_view prefix) }
    {
        Body {
            prefix,
            before: Before::nothing(alloc),
            touched: true,
        }
    }

    /// The nesting of the operand that comes, or `usize::MAX`.
    #[tactic(auto, using(crate::proofs::Words::inside))]
    pub fn nesting(&self) -> usize
        ensures { result ≡ min (machine.operand_nesting (body_view self.now)) usize.MAX }
    {
        usize::from(self.prefix.base).saturating_add(self.before.tildes.len())
    }

    /// The nesting inside of the operand that comes, or `Depth` past the greatest.
    pub fn inside(&self) -> Result<u8, Stop>
        ensures { IsInside (machine.operand_nesting (body_view self.now)) result }
    {
        let nesting = self.nesting();
        if nesting >= LIMIT {
            return Err(Stop::Depth);
        }
        Ok((nesting + 1) as u8)
    }
}

impl Sum {
    /// Nothing, where the product that comes is the first of its term or not.
    pub fn empty(alloc: Global, lone: bool) -> Sum
        ensures addends { addends_view result.addends.items ≡ no_addends }
        ensures factors { factors_view result.factors.items ≡ no_factors }
        ensures product { product_view result.product ≡ flaws.product_start lone }
    {
        Sum {
            addends: Vec::new(alloc),
            factors: Vec::new(alloc),
            product: Product::start(lone),
        }
    }
}

impl Reading {
    /// A term of which nothing has come.
    pub fn start(alloc: Global, role: Role) -> Reading
        ensures role { role_view result.nest.role ≡ role_view role }
        ensures outer { outers_view result.nest.outer.items ≡ [] }
        ensures addends { addends_view result.sum.addends.items ≡ no_addends }
        ensures factors { factors_view result.sum.factors.items ≡ no_factors }
        ensures product { product_view result.sum.product ≡ flaws.product_start true }
    {
        Reading {
            nest: Nest {
                role,
                outer: Vec::new(alloc),
            },
            sum: Sum::empty(alloc, true),
        }
    }
}
