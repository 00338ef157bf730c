//! Texts and their trees. A tree is written with each part in parentheses, and each atom in braces after its system.

use crate::answers::{Asked, expect_answers};
use crate::text_rows::table;
use crate::written::Written;
use digit_tuple::name::Name;
use formula_parse::tree::{
    Connective, Fact, Factor, Formula, Index, Quantifier, Relation, Sign, Term,
};
use std::alloc::Global;
use std::process::Abort;

fn write_names(names: &[Name], between: &str, out: &mut Written) {
    let mut first = true;
    for name in names {
        if !first {
            out.put(between);
        }
        out.put(name.as_str());
        first = false;
    }
}

fn relation_text(relation: Relation) -> &'static str {
    match relation {
        Relation::Equal => "=",
        Relation::Unequal => "!=",
        Relation::Less => "<",
        Relation::Greater => ">",
        Relation::AtMost => "<=",
        Relation::AtLeast => ">=",
    }
}

fn connective_text(connective: Connective) -> &'static str {
    match connective {
        Connective::And => " & ",
        Connective::Or => " | ",
        Connective::Xor => " ^ ",
        Connective::Implies => " => ",
        Connective::Iff => " <=> ",
    }
}

fn quantifier_text(quantifier: Quantifier) -> &'static str {
    match quantifier {
        Quantifier::Exists => "(E",
        Quantifier::ForAll => "(A",
        Quantifier::Infinite => "(I",
    }
}

fn sign_text(sign: Sign) -> &'static str {
    match sign {
        Sign::Plus => "+",
        Sign::Minus => "-",
    }
}

fn write_term(alloc: Global, term: &Term, out: &mut Written) {
    match term {
        Term::Variable(name) => out.put(name.as_str()),
        Term::Numeral(value) => out.put_made("", value.to_string(alloc)),
        Term::Product(factors) => {
            let mut first = true;
            for factor in factors {
                match factor {
                    Factor::Times(term) => {
                        out.put(if first { "(" } else { "*" });
                        write_term(alloc, term, out);
                    }
                    Factor::Divided(divisor) => out.put_made("/", divisor.to_string(alloc)),
                }
                first = false;
            }
            out.put(")");
        }
        Term::Sum(addends, last) => {
            out.put_made("", "(".repeat(alloc, addends.len()));
            let mut first = true;
            for addend in addends {
                write_term(alloc, &addend.term, out);
                if !first {
                    out.put(")");
                }
                out.put(sign_text(addend.sign));
                first = false;
            }
            write_term(alloc, last, out);
            out.put(")");
        }
    }
}

fn write_index(alloc: Global, index: &Index, out: &mut Written) {
    out.put(index.word.as_str());
    for place in &index.places {
        out.put("[");
        write_term(alloc, place, out);
        out.put("]");
    }
}

fn write_fact(alloc: Global, fact: &Fact, out: &mut Written) {
    match fact {
        Fact::Compare(left, relation, right) => {
            write_term(alloc, left, out);
            out.put(relation_text(*relation));
            write_term(alloc, right, out);
        }
        Fact::Words(left, relation, right) => {
            write_index(alloc, left, out);
            out.put(relation_text(*relation));
            write_index(alloc, right, out);
        }
        Fact::WordLetter(word, relation, letter) => {
            write_index(alloc, word, out);
            out.put(relation_text(*relation));
            out.put_made("@", letter.to_string(alloc));
        }
        Fact::LetterWord(letter, relation, word) => {
            out.put_made("@", letter.to_string(alloc));
            out.put(relation_text(*relation));
            write_index(alloc, word, out);
        }
        Fact::Call(name, arguments) => {
            out.put("$");
            out.put(name.as_str());
            out.put("(");
            let mut first = true;
            for argument in arguments {
                if !first {
                    out.put(",");
                }
                write_term(alloc, argument, out);
                first = false;
            }
            out.put(")");
        }
    }
}

fn write_formula(alloc: Global, formula: &Formula, out: &mut Written) {
    match formula {
        Formula::Atom(atom) => {
            out.put("{");
            out.put(atom.system.as_str());
            out.put(" ");
            write_fact(alloc, &atom.fact, out);
            out.put("}");
        }
        Formula::Negated(inner) => {
            out.put("(~");
            write_formula(alloc, inner, out);
            out.put(")");
        }
        Formula::Chain(operands, last) => {
            out.put_made("", "(".repeat(alloc, operands.len()));
            let mut first = true;
            for operand in operands {
                write_formula(alloc, &operand.formula, out);
                if !first {
                    out.put(")");
                }
                out.put(connective_text(operand.connective));
                first = false;
            }
            write_formula(alloc, last, out);
            out.put(")");
        }
        Formula::Quantified(quantifier, names, inner) => {
            out.put(quantifier_text(*quantifier));
            write_names(names, ",", out);
            out.put(" ");
            write_formula(alloc, inner, out);
            out.put(")");
        }
        Formula::Marked(systems, inner) => {
            out.put("(?");
            write_names(systems, "?", out);
            out.put(" ");
            write_formula(alloc, inner, out);
            out.put(")");
        }
    }
}

// A tree as a text.
pub(crate) fn tree_of(rt: &impl Abort, alloc: Global, tree: &Formula) -> String {
    let mut written = Written::new(alloc);
    write_formula(alloc, tree, &mut written);
    written.whole(rt)
}

// Texts, and the tree of each.
const TREES: &str = table![
    // A quantifier takes all that follows.
    ("Ax Ey x=y+y", "(Ax (Ey {msd_2 x=(y+y)}))"),
    (
        "x=1 & Ey y=2 & z=3",
        "({msd_2 x=1} & (Ey ({msd_2 y=2} & {msd_2 z=3})))",
    ),
    ("(Ey y=2) & z=3", "((Ey {msd_2 y=2}) & {msd_2 z=3})"),
    ("~Ex x=1 & y=2", "(~(Ex ({msd_2 x=1} & {msd_2 y=2})))"),
    (
        "?msd_fib Ei,n n>=1 & At t<2*n => F[i+t]=F[i+n+t]",
        "(?msd_fib (Ei,n ({msd_fib n>=1} & (At ({msd_fib t<(2*n)} => {msd_fib F[(i+t)]=F[((i+n)+t)]})))))",
    ),
    // What binds tighter.
    ("~x=1 & y=2", "((~{msd_2 x=1}) & {msd_2 y=2})"),
    ("~(x=1 & y=2)", "(~({msd_2 x=1} & {msd_2 y=2}))"),
    (
        "x=1 & y=2 <=> z=3 => x=1",
        "(({msd_2 x=1} & {msd_2 y=2}) <=> ({msd_2 z=3} => {msd_2 x=1}))",
    ),
    (
        "x=1 => y=2 & z=3",
        "({msd_2 x=1} => ({msd_2 y=2} & {msd_2 z=3}))",
    ),
    (
        "x=1 & (y=2 | z=3)",
        "({msd_2 x=1} & ({msd_2 y=2} | {msd_2 z=3}))",
    ),
    ("2*x+3*y=z", "{msd_2 ((2*x)+(3*y))=z}"),
    (
        "x=1 => y=2 <=> y=2 => x=1",
        "(({msd_2 x=1} => {msd_2 y=2}) <=> ({msd_2 y=2} => {msd_2 x=1}))",
    ),
    (
        "(x=1 | y=2) & z=3",
        "(({msd_2 x=1} | {msd_2 y=2}) & {msd_2 z=3})",
    ),
    // From the left.
    ("x-1+y-2=z", "{msd_2 (((x-1)+y)-2)=z}"),
    ("x-(1+y)=z", "{msd_2 (x-(1+y))=z}"),
    (
        "x=1 | y=2 | z=3",
        "(({msd_2 x=1} | {msd_2 y=2}) | {msd_2 z=3})",
    ),
    (
        "x=1 & y=2 ^ z=3",
        "(({msd_2 x=1} & {msd_2 y=2}) ^ {msd_2 z=3})",
    ),
    (
        "x=1 & y=2 | z=3",
        "(({msd_2 x=1} & {msd_2 y=2}) | {msd_2 z=3})",
    ),
    (
        "x=1 <=> y=2 <=> z=3",
        "(({msd_2 x=1} <=> {msd_2 y=2}) <=> {msd_2 z=3})",
    ),
    (
        "x=1 => (y=2 => z=3)",
        "({msd_2 x=1} => ({msd_2 y=2} => {msd_2 z=3}))",
    ),
    (
        "(x=1 => y=2) => z=3",
        "(({msd_2 x=1} => {msd_2 y=2}) => {msd_2 z=3})",
    ),
    // How far a system holds.
    ("(?lsd_2 x=1) & y=2", "((?lsd_2 {lsd_2 x=1}) & {msd_2 y=2})"),
    ("?lsd_2 x=1 & y=2", "((?lsd_2 {lsd_2 x=1}) & {lsd_2 y=2})"),
    (
        "x=1&?msd_fib y=2",
        "({msd_2 x=1} & (?msd_fib {msd_fib y=2}))",
    ),
    ("?lsd_2 ?msd_2 x=1", "(?lsd_2?msd_2 {msd_2 x=1})"),
    (
        "?lsd_2 (?msd_fib x=1) & y=2",
        "((?lsd_2 (?msd_fib {msd_fib x=1})) & {lsd_2 y=2})",
    ),
    ("Ex ?lsd_2 x=1", "(Ex (?lsd_2 {lsd_2 x=1}))"),
    ("~?lsd_3 ~x=1", "(~(?lsd_3 (~{lsd_3 x=1})))"),
    // Parentheses of a term and of a formula.
    ("((x)+y)=z", "{msd_2 (x+y)=z}"),
    ("((2))*x=2", "{msd_2 (2*x)=2}"),
    ("2*3=6", "{msd_2 (2*3)=6}"),
    ("((x)+y=z)", "{msd_2 (x+y)=z}"),
    ("(((x=y)))", "{msd_2 x=y}"),
    ("2*(x+y)=z", "{msd_2 (2*(x+y))=z}"),
    ("(x+y)*2=z", "{msd_2 ((x+y)*2)=z}"),
    ("2*x*3=z", "{msd_2 (2*x*3)=z}"),
    // Divisors, from the left.
    ("x/3=y", "{msd_2 (x/3)=y}"),
    ("x/1=y", "{msd_2 (x/1)=y}"),
    ("2*x/3*4=y", "{msd_2 (2*x/3*4)=y}"),
    ("x/2/003=y", "{msd_2 (x/2/3)=y}"),
    ("6/2=y", "{msd_2 (6/2)=y}"),
    ("2/3*4=y", "{msd_2 (2/3*4)=y}"),
    ("(x+y)/2=z", "{msd_2 ((x+y)/2)=z}"),
    ("(x-1) / 2=z", "{msd_2 ((x-1)/2)=z}"),
    ("x-1/2=z", "{msd_2 (x-(1/2))=z}"),
    ("3*(x/2)=z", "{msd_2 (3*(x/2))=z}"),
    ("(x/2)/3=z", "{msd_2 ((x/2)/3)=z}"),
    ("T[x/2]=@1", "{msd_2 T[(x/2)]=@1}"),
    ("$f(x/2,y)", "{msd_2 $f((x/2),y)}"),
    (
        "x/18446744073709551615=0",
        "{msd_2 (x/18446744073709551615)=0}",
    ),
    // For infinitely many.
    ("Ix x=1", "(Ix {msd_2 x=1})"),
    ("Ix Ey x=2*y", "(Ix (Ey {msd_2 x=(2*y)}))"),
    (
        "x=1 & Iy y=2 & z=3",
        "({msd_2 x=1} & (Iy ({msd_2 y=2} & {msd_2 z=3})))",
    ),
    ("~?lsd_2 ~Ix x=1", "(~(?lsd_2 (~(Ix {lsd_2 x=1}))))"),
    ("IaI aI=1", "(IaI {msd_2 aI=1})"),
    // Letters, words and calls.
    ("@-1!=T[0][1]", "{msd_2 @-1!=T[0][1]}"),
    ("@ - 1 != T[0][1]", "{msd_2 @-1!=T[0][1]}"),
    ("T[0]=@2147483647", "{msd_2 T[0]=@2147483647}"),
    ("T[0]=@-2147483648", "{msd_2 T[0]=@-2147483648}"),
    ("T[x][y]<U[z]", "{msd_2 T[x][y]<U[z]}"),
    ("$f(x,2*y)", "{msd_2 $f(x,(2*y))}"),
    ("$Even()", "{msd_2 $Even()}"),
    ("$A (2*x) | x<=3", "({msd_2 $A((2*x))} | {msd_2 x<=3})"),
    // Relations, names and numerals.
    ("x<=y", "{msd_2 x<=y}"),
    ("x>y", "{msd_2 x>y}"),
    ("x!=y", "{msd_2 x!=y}"),
    ("\tx =\r\n1 ", "{msd_2 x=1}"),
    ("x_1 >= 007", "{msd_2 x_1>=7}"),
    ("18446744073709551615<x", "{msd_2 18446744073709551615<x}"),
];

#[test]
fn texts_have_these_trees(rt: HostRuntime) {
    expect_answers(&rt, rt.alloc(), Asked::Tree, TREES);
}
