// flatten_module_to_3ac: definitions and equations cut into equalities of one operation each, written from word `at` of the body on.
#![tactic(auto)]

mod simplify;

ghost use Rattle.std.specs.Prelude.{◌≡◌, [], ◌∷◌, ◌+◌, ◌*◌, ◌≤◌, ◌<◌, length, Some};
ghost use Rattle.words.specs.Words.{set_words};
ghost use Rattle.flat.specs.Trees.{tree_nodes, definitions_nodes, equations_nodes};
ghost use Rattle.flat.specs.Layout.{nodes};
ghost use Rattle.flat.specs.Record.{module_of};
ghost use Rattle.constraint.specs.Record.{EQUALITY-WORDS, written_words};
ghost use Rattle.pass_trees.specs.Passes.{counted, copy_propagate_expr, copied, placed, cuts_of, both, flatten_sides};
ghost use Rattle.pass_classify.specs.Readable.{tree_of};
ghost use Rattle.pass_copies.specs.Substituted.{option_of, subst_of, put_definitions};
ghost use Rattle.pass_3ac.specs.Cutting.{DRAWN, placed_cut, tree_cut, Room, put_equalities, place_from, Cut, Place};
ghost use Rattle.pass_3ac.specs.Cutting.{DefsPut, record_defs, equations_cut, record_equations, sides_of};
ghost use Rattle.pass_3ac.specs.Writers.{Placed, TreePut, CutsPut, RoomIn, place_of};
ghost use Rattle.records.specs.FlatRecord.{IDS};

use constraint::{EQUALITY_WORDS, Equality, Term, put_equality};
use flat::Node;
use flat::entries::{DefinitionEntry, EquationEntry};
use pass_classify::Classes;
use pass_classify::record::Record;
use pass_copies::{Substitutions, is_dead};
use simplify::{copy, infix_op, negate};

// Writes equalities into the body: from word `at` on, with the ids from `next` on, and with the place of the definition or equation that is cut.
#[derive(Drop)]
pub struct Writer<'a> {
    pub body: &'a mut [u8],
    pub next: u32,
    pub at: usize,
    pub place: u32,
}

impl Writer<'_> {
    // An equality of an operation: an id is drawn, also where the left side is given.
    fn push_constraint_def(&mut self, equality: Equality) -> Term
        requires { (4 * (self.old.at + EQUALITY-WORDS) ≤ length self.old.body.now) × (self.old.next < DRAWN) }
        ensures { Placed (set_words self.old.body.now self.old.at (written_words equality self.old.place))
            (record { term = equality.left; place = record { next = self.old.next + 1; at = self.old.at + EQUALITY-WORDS } }) result self.old self.new }
    {
        put_equality(self.body, self.at, equality, self.place);
        self.next += 1;
        self.at += EQUALITY_WORDS;
        equality.left
    }

    // A term draws no id: it stands for itself, or is copied to the left side that is given.
    fn place_term(&mut self, target: Option<Term>, term: Term) -> Term
        requires { 4 * (self.old.at + EQUALITY-WORDS) ≤ length self.old.body.now }
        ensures { TreePut (placed_cut self.old.place (copied (option_of target) term self.old.next)) result self.old self.new }
    {
        let Some(left) = target else {
            return term;
        };
        put_equality(self.body, self.at, copy(term).equality(left), self.place);
        self.at += EQUALITY_WORDS;
        left
    }

    // Node k's tree, with the substitutions made, cut into the left side that is given, or into a new variable; answers the term that stands for it.
    // The node index falls at each call.
    fn flatten_expr_to_3ac(
        &mut self,
        record: &Record,
        k: usize,
        subs: &Substitutions,
        target: Option<Term>,
    ) -> Term
        requires { (k < nodes record.now.bytes.now) × RoomIn (tree_nodes (tree_of record.now.bytes.now k)) self.old }
        ensures { TreePut (tree_cut self.old.place target subs.now.steps (subst_of subs.now.terms) (tree_of record.now.bytes.now k) self.old.next)
            result self.old self.new }
    {
        match record.node(k) {
            Node::Infix(op, x, y) => {
                let a = self.flatten_expr_to_3ac(record, x, subs, None);
                let b = self.flatten_expr_to_3ac(record, y, subs, None);
                let left = target.unwrap_or(Term::Variable(self.next));
                self.push_constraint_def(infix_op(op, a, b).equality(left))
            }
            Node::Negate(x) => {
                let a = self.flatten_expr_to_3ac(record, x, subs, None);
                let left = target.unwrap_or(Term::Variable(self.next));
                self.push_constraint_def(negate(a).equality(left))
            }
            Node::Constant(c) => self.place_term(target, Term::Constant(c)),
            Node::Variable(v) => self.place_term(target, subs.resolve(v)),
        }
    }

    // One definition: cut where it is counted, with its place, and then its substitution.
    fn flatten_def_to_3ac(
        &mut self,
        classes: &Classes,
        d: DefinitionEntry,
        subs: &mut Substitutions,
    )
        requires { (d.id < IDS)
            × (d.node < nodes classes.now.record.bytes.now)
            × RoomIn (tree_nodes (tree_of classes.now.record.bytes.now d.node)) self.old }
        ensures defs_put { DefsPut classes.now.record.bytes.now subs.old.steps
            (record { id = d.id; right = tree_of classes.now.record.bytes.now d.node; place = d.place } ∷ []) subs.old.terms
            subs.new.terms self.old.body.now self.new.body.now self.old.at self.old.next (place_of self.new) }
        ensures lent { self.new.body ≡ record self.old.body { now = self.new.body.now } }
        ensures steps { subs.new.steps ≡ subs.old.steps }
    {
        let id = d.id as usize;
        if classes.is_never(id) {
            return;
        }
        if classes.is_prover(id) {
            return;
        }
        let record = &classes.record;
        let left = Some(Term::Variable(d.id));
        self.place = d.place;
        self.flatten_expr_to_3ac(record, d.node, subs, left);
        subs.substitute(record, d);
    }

    // The definitions of a readable record that are counted, in their order.
    pub fn flatten_defs(&mut self, classes: &Classes, subs: &mut Substitutions)
        requires { RoomIn (definitions_nodes (module_of classes.now.record.bytes.now).definitions) self.old }
        ensures body_after { self.new.body ≡ record self.old.body {
          now = put_equalities self.old.body.now self.old.at
              (record_defs classes.now.record.bytes.now subs.old.steps subs.old.terms self.old.next).equalities;
        } }
        ensures value { place_of self.new ≡ place_from self.old.at (record_defs classes.now.record.bytes.now subs.old.steps subs.old.terms self.old.next) }
        ensures subs_after { subs.new.terms ≡ put_definitions subs.old.steps subs.old.terms (counted (module_of classes.now.record.bytes.now)) }
        ensures steps { subs.new.steps ≡ subs.old.steps }
    {
        let record = &classes.record;
        for k in 0..record.layout.definitions {
            self.flatten_def_to_3ac(classes, record.definition(k), subs);
        }
    }

    // Neither side is a term: both are cut, and the right one's term is copied to the left one's.
    fn flatten_both(&mut self, record: &Record, e: EquationEntry, subs: &Substitutions)
        requires { (e.left < nodes record.now.bytes.now)
            × (e.right < nodes record.now.bytes.now)
            × RoomIn (tree_nodes (tree_of record.now.bytes.now e.left) + tree_nodes (tree_of record.now.bytes.now e.right)) self.old }
        ensures { CutsPut (placed self.old.place (flatten_sides (both
            (copy_propagate_expr subs.now.steps (subst_of subs.now.terms) (tree_of record.now.bytes.now e.left))
            (copy_propagate_expr subs.now.steps (subst_of subs.now.terms) (tree_of record.now.bytes.now e.right))) self.old.next)) self.old self.new }
    {
        let a = self.flatten_expr_to_3ac(record, e.left, subs, None);
        let b = self.flatten_expr_to_3ac(record, e.right, subs, None);
        self.place_term(Some(a), b);
    }

    // One equation, with its place: nothing where it is obviously true.
    fn flatten_equation(&mut self, record: &Record, e: EquationEntry, subs: &Substitutions)
        requires { (e.left < nodes record.now.bytes.now)
            × (e.right < nodes record.now.bytes.now)
            × RoomIn (tree_nodes (tree_of record.now.bytes.now e.left) + tree_nodes (tree_of record.now.bytes.now e.right)) self.old }
        ensures { CutsPut (equations_cut subs.now.steps (subst_of subs.now.terms)
            (record { left = tree_of record.now.bytes.now e.left; right = tree_of record.now.bytes.now e.right; place = e.place } ∷ []) self.old.next)
            self.old self.new }
    {
        let a = subs.copy_expr(record, e.left);
        let b = subs.copy_expr(record, e.right);
        if is_dead(a, b) {
            return;
        }
        self.place = e.place;
        match left_side(a, b) {
            Sides::Left(x) => {
                self.flatten_expr_to_3ac(record, e.right, subs, Some(x));
            }
            Sides::Right(y) => {
                self.flatten_expr_to_3ac(record, e.left, subs, Some(y));
            }
            Sides::Neither => self.flatten_both(record, e, subs),
        }
    }

    // The equations of a readable record, in their order.
    pub fn flatten_equations(&mut self, record: &Record, subs: &Substitutions)
        requires { RoomIn (equations_nodes (module_of record.now.bytes.now).equations) self.old }
        ensures body_after { self.new.body ≡ record self.old.body {
          now = put_equalities self.old.body.now self.old.at
              (record_equations record.now.bytes.now subs.now.steps subs.now.terms self.old.next).equalities;
        } }
        ensures value { place_of self.new ≡ place_from self.old.at (record_equations record.now.bytes.now subs.now.steps subs.now.terms self.old.next) }
    {
        for k in 0..record.layout.equations {
            self.flatten_equation(record, record.equation(k), subs);
        }
    }
}

// Which side of an equation is the left term of its last equality.
// Kept as it is: three cases, and a term in two of them; an Option of a term and a node would not say which side it is.
#[derive(Clone, Copy)]
pub enum Sides {
    Left(Term),
    Right(Term),
    Neither,
}

// A left variable, else a right variable, else a left constant, else a right constant.
fn left_side(a: Option<Term>, b: Option<Term>) -> Sides
    ensures { result ≡ sides_of a b }
{
    match (a, b) {
        (None, None) => Sides::Neither,
        (None, Some(y)) => Sides::Right(y),
        (Some(x), None) => Sides::Left(x),
        (Some(x), Some(y)) => match (x, y) {
            (Term::Constant(_), Term::Variable(_)) => Sides::Right(y),
            _ => Sides::Left(x),
        },
    }
}
