// copy_propagate and eliminate_dead_equalities: what stands for a variable, in an array by id.
#![tactic(auto)]

ghost use Rattle.std.specs.Prelude.{◌≡◌, not, ◌<◌, length};
ghost use Rattle.flat.specs.Layout.{nodes};
ghost use Rattle.flat.specs.Record.{module_of};
ghost use Rattle.constraint.specs.declared.Term.TheVariants.{Variable};
ghost use Rattle.pass_trees.specs.Passes.{is_never, those, walk, copy_propagate_expr};
ghost use Rattle.pass_classify.specs.Readable.{tree_of};
ghost use Rattle.pass_classify.specs.Arrays.{usage_of};
ghost use Rattle.pass_copies.specs.Substituted.{subst_of, no_substitutions, copied_of, put_definition, dead_roots, long-prop};
ghost use Rattle.records.specs.FlatRecord.{IDS};

use constraint::Term;
use flat::Node;
use flat::entries::DefinitionEntry;
use pass_classify::record::Record;
use pass_classify::{Usages, is_never};
use records::flat_record::ID_COUNT;

// What stands for an id.
// Kept as it is: an Option of a Term takes 12 bytes, not 8, and an eighth of a small record's time; the bar is the Rust's, over which these are as it is.
#[derive(Clone, Copy)]
pub enum Substitute {
    Itself,
    Variable(u32),
    Constant(i32),
}

// What stands for each id, and by how many steps an id is followed at most.
// Kept as it is: the record is lent beside these: the passes have it in `Classes`, and what the substitutions are is said without it.
#[derive(Clone, Copy)]
pub struct Substitutions {
    pub terms: [Substitute; ID_COUNT],
    pub steps: usize,
    pub ghost long: { length terms ≡ IDS } by { long-prop terms },
}

impl Substitutions {
    // No id has a substitution.
    pub fn new(steps: usize) -> Substitutions
        ensures { (result.terms ≡ no_substitutions) × (result.steps ≡ steps) }
    {
        Substitutions {
            terms: [Substitute::Itself; ID_COUNT],
            steps,
        }
    }

    // No id has a substitution any more.
    pub fn clear(&mut self)
        ensures { (self.new.terms ≡ no_substitutions) × (self.new.steps ≡ self.old.steps) }
    {
        self.terms = [Substitute::Itself; ID_COUNT];
    }

    // The term that stands for an id.
    pub fn resolve(&self, v: u32) -> Term
        ensures { result ≡ walk self.now.steps (subst_of self.now.terms) (Variable v) }
    {
        let mut id = v;
        // Kept as it is: counted down, so that the steps that are left are those of the definition, `walk`.
        // Kept as it is: with `get`, which was tried, None and Itself in one pattern left the proof no fact of the second; two arms are no plainer.
        for _left in (0..self.steps).rev() {
            let i = id as usize;
            if ID_COUNT <= i {
                return Term::Variable(id);
            }
            match self.terms[i] {
                Substitute::Itself => return Term::Variable(id),
                Substitute::Constant(c) => return Term::Constant(c),
                Substitute::Variable(w) => id = w,
            }
        }
        Term::Variable(id)
    }

    // The root of node k's expression with the substitutions made: a term, or none where it is an operation on others.
    pub fn copy_expr(&self, record: &Record, k: usize) -> Option<Term>
        requires { k < nodes record.now.bytes.now }
        ensures { result ≡ copied_of (copy_propagate_expr self.now.steps (subst_of self.now.terms) (tree_of record.now.bytes.now k)) }
    {
        match record.node(k) {
            Node::Infix(_, _, _) => None,
            Node::Negate(_) => None,
            Node::Constant(c) => Some(Term::Constant(c)),
            Node::Variable(v) => Some(self.resolve(v)),
        }
    }

    // The substitutions after a definition whose id is not the prover's: a term stands for its variable, unless it is the variable itself.
    // Kept as it is: a term becomes a substitute here alone, with the test beside it; a `From` would have one caller.
    pub fn substitute(&mut self, record: &Record, d: DefinitionEntry)
        requires { (d.id < IDS) × (d.node < nodes record.now.bytes.now) }
        ensures { (self.new.terms ≡ put_definition self.old.steps self.old.terms
            (record { id = d.id; right = tree_of record.now.bytes.now d.node; place = d.place }))
            × (self.new.steps ≡ self.old.steps) }
    {
        match self.copy_expr(record, d.node) {
            None => {}
            Some(Term::Constant(c)) => self.terms[d.id as usize] = Substitute::Constant(c),
            Some(Term::Variable(w)) => {
                if w != d.id {
                    self.terms[d.id as usize] = Substitute::Variable(w);
                }
            }
        }
    }
}

// Whether an equation is obviously true: two equal constants, as they are written, or one variable twice.
// Kept as it is: the match has the two cases of the definition; `a.is_some() && a == b` is no plainer.
pub fn is_dead(a: Option<Term>, b: Option<Term>) -> bool
    ensures { result ≡ dead_roots a b }
{
    match (a, b) {
        (Some(x), Some(y)) => x == y,
        _ => false,
    }
}

// How many of the record's definitions are used, in any array of usages: after classify_defs the steps that suffice for every walk.
pub fn used_definitions(record: &Record, usage: &Usages) -> usize
    ensures { result ≡ length (those (λ v. not (is_never (usage_of usage.now v))) (module_of record.now.bytes.now).definitions) }
{
    (0..record.layout.definitions)
        .filter(|&k| !is_never(usage, record.definition(k).id as usize))
        .count()
}
