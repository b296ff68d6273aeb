// classify_defs: how each id is used, and which ids are the prover's, in arrays by id.
#![tactic(auto)]

pub mod record;

ghost use Rattle.std.specs.Prelude.{◌≡◌, ◌&&◌, ◌||◌, ◌<◌, ◌≤◌, length, eqb, ltb};
ghost use Rattle.flat.specs.Meaning.{update};
ghost use Rattle.flat.specs.Layout.{nodes};
ghost use Rattle.flat.specs.Record.{module_of};
ghost use Rattle.pass_trees.specs.Passes.{member, most, is_never, is_witness, mark_used, used_in, override, classified};
ghost use Rattle.pass_trees.specs.Passes.{cuttable, cuttable_expr, cuttable_defs, cuttable_equations, counted};
ghost use Rattle.pass_classify.specs.Readable.{tree_of};
ghost use Rattle.pass_classify.specs.Arrays.{usage_of, marked, Uses, Marks, usages_of, marks_of, Classified, Classified-prop};
ghost use Rattle.records.specs.FlatRecord.{IDS};

use field::InfixOp;
use flat::Node;
use flat::entries::{DefinitionEntry, EquationEntry};
pub use pass_trees::Usage;
use record::Record;
use records::flat_record::ID_COUNT;

// How each id is used, and whether it is the prover's.
pub type Usages = [Usage; ID_COUNT];

pub type Provers = [bool; ID_COUNT];

// A readable record, and after classify_defs how each id is used and whether it is the prover's: in arrays that are lent, so that none is copied.
// Kept as it is: two arrays by id, not one of pairs, since the definitions have a function for each, and most functions read one of them.
#[derive(Clone, Copy)]
pub struct Classes<'a> {
    pub record: Record<'a>,
    pub usage: &'a Usages,
    pub provers: &'a Provers,
    pub ghost classified: { Classified record.bytes.now usage.now provers.now } by { Classified-prop },
}

// An id is used at least so.
// Kept as it is: the arrays are lent one by one while they are made: `Classes` says that both are the record's, which holds at the end.
fn mark(usage: &mut Usages, v: u32, u: Usage)
    requires { v < IDS }
    ensures { Uses usage.new (update (usage_of usage.old) v (most (usage_of usage.old v) u)) }
{
    let i = v as usize;
    usage[i] = usage[i].max(u);
}

// Every variable of node k's tree is used at least so. The node index falls at each call.
fn mark_used(record: &Record, k: usize, u: Usage, usage: &mut Usages)
    requires { k < nodes record.now.bytes.now }
    ensures { Uses usage.new (mark_used u (tree_of record.now.bytes.now k) (usage_of usage.old)) }
{
    match record.node(k) {
        Node::Infix(_, x, y) => {
            mark_used(record, x, u, usage);
            mark_used(record, y, u, usage);
        }
        Node::Negate(x) => mark_used(record, x, u, usage),
        Node::Constant(_) => {}
        Node::Variable(v) => mark(usage, v, u),
    }
}

// The variables of the equations are used in constraints.
fn mark_equations(record: &Record, usage: &mut Usages)
    ensures { Uses usage.new (used_in (module_of record.now.bytes.now).equations (usage_of usage.old)) }
{
    for k in 0..record.layout.equations {
        let e = record.equation(k);
        mark_used(record, e.left, Usage::Constraint, usage);
        mark_used(record, e.right, Usage::Constraint, usage);
    }
}

// How a defined id is used: as a witness where it is used and the prover's.
fn override_usage(usage: &mut Usages, provers: &Provers, id: usize) -> Usage
    requires { id < IDS }
    ensures value { result ≡ override (marked provers.now id) (usage_of usage.old id) }
    ensures uses { Uses usage.new (update (usage_of usage.old) id result) }
{
    if usage[id] == Usage::Constraint && provers[id] {
        usage[id] = Usage::Witness;
    }
    usage[id]
}

// The definitions from the last to the first: each hands its usage on to the variables of its right side.
fn mark_definitions(record: &Record, provers: &Provers, usage: &mut Usages)
    requires { marked provers.now ≡ (λ v. member v (module_of record.now.bytes.now).provers) }
    ensures { Uses usage.new (classified (module_of record.now.bytes.now).provers
        (module_of record.now.bytes.now).definitions (usage_of usage.old)) }
{
    for k in (0..record.layout.definitions).rev() {
        let d = record.definition(k);
        let u = override_usage(usage, provers, d.id as usize);
        mark_used(record, d.node, u, usage);
    }
}

// The record's prover ids are marked.
fn mark_provers(record: &Record, provers: &mut Provers)
    ensures { Marks provers.new (λ v. marked provers.old v || member v (module_of record.now.bytes.now).provers) }
{
    for k in 0..record.layout.provers {
        let id = record.prover(k) as usize;
        provers[id] = true;
    }
}

// The ids below the next id that are used as a witness are the prover's.
// Kept as it is: `iter_mut().zip(usage)` was tried; a loop's invariant knows nothing of the elements that an adapter of iter_mut has lent.
fn add_witnesses(usage: &Usages, next: usize, provers: &mut Provers)
    requires { next ≤ IDS }
    ensures { Marks provers.new (λ w. marked provers.old w || (ltb w next && is_witness (usage_of usage.now w))) }
{
    for v in 0..next {
        provers[v] |= usage[v] == Usage::Witness;
    }
}

// Usages and prover ids of a readable record, in the arrays that are lent, whatever they hold.
pub fn classify_defs(record: &Record, usage: &mut Usages, provers: &mut Provers)
    ensures { (usage.new ≡ usages_of record.now.bytes.now) × (provers.new ≡ marks_of record.now.bytes.now) }
{
    *usage = [Usage::Never; ID_COUNT];
    *provers = [false; ID_COUNT];
    mark_provers(record, provers);
    mark_equations(record, usage);
    mark_definitions(record, provers, usage);
    add_witnesses(usage, record.layout.next, provers);
}

// Neither `^` nor `=`.
fn cuttable_operator(op: InfixOp) -> bool
    ensures { result ≡ cuttable op }
{
    !matches!(op, InfixOp::Exponentiate | InfixOp::Equal)
}

// Whether node k's tree has neither `^` nor `=`. The node index falls at each call.
fn cuttable_expr(record: &Record, k: usize) -> bool
    requires { k < nodes record.now.bytes.now }
    ensures { result ≡ cuttable_expr (tree_of record.now.bytes.now k) }
{
    match record.node(k) {
        Node::Infix(op, x, y) => {
            cuttable_operator(op) && cuttable_expr(record, x) && cuttable_expr(record, y)
        }
        Node::Negate(x) => cuttable_expr(record, x),
        Node::Constant(_) => true,
        Node::Variable(_) => true,
    }
}

fn cuttable_equation(record: &Record, e: EquationEntry) -> bool
    requires { (e.left < nodes record.now.bytes.now) × (e.right < nodes record.now.bytes.now) }
    ensures { result ≡ (cuttable_expr (tree_of record.now.bytes.now e.left) && cuttable_expr (tree_of record.now.bytes.now e.right)) }
{
    cuttable_expr(record, e.left) && cuttable_expr(record, e.right)
}

// Whether no equation has `^` or an inner `=`.
fn cuttable_equations(record: &Record) -> bool
    ensures { result ≡ cuttable_equations (module_of record.now.bytes.now).equations }
{
    (0..record.layout.equations).all(|k| cuttable_equation(record, record.equation(k)))
}

// Whether an id is not used, in any array of usages.
pub fn is_never(usage: &Usages, v: usize) -> bool
    requires { v < IDS }
    ensures { result ≡ is_never (usage_of usage.now v) }
{
    let u = usage[v];
    u == Usage::Never
}

// Kept as it is: each asks that its id is below IDS, which Record's methods promise of what they read; a type for ids would be made of each id that is read.
impl Classes<'_> {
    // Whether the id is not used.
    pub fn is_never(&self, v: usize) -> bool
        requires { v < IDS }
        ensures { result ≡ is_never (usage_of self.now.usage.now v) }
    {
        is_never(self.usage, v)
    }

    // Whether the id is the prover's.
    pub fn is_prover(&self, v: usize) -> bool
        requires { v < IDS }
        ensures { result ≡ marked self.now.provers.now v }
    {
        self.provers[v]
    }
}

// A definition that is not counted need not be cut.
fn cuttable_def(classes: &Classes, d: DefinitionEntry) -> bool
    requires { (d.id < IDS) × (d.node < nodes classes.now.record.bytes.now) }
    ensures { result ≡ (is_never (usage_of classes.now.usage.now d.id) || (marked classes.now.provers.now d.id
        || cuttable_expr (tree_of classes.now.record.bytes.now d.node))) }
{
    let id = d.id as usize;
    let prover = classes.is_prover(id);
    classes.is_never(id) || prover || cuttable_expr(&classes.record, d.node)
}

// Whether no counted definition has `^` or `=`.
fn cuttable_defs(classes: &Classes) -> bool
    ensures { result ≡ cuttable_defs (counted (module_of classes.now.record.bytes.now)) }
{
    let record = &classes.record;
    (0..record.layout.definitions).all(|k| cuttable_def(classes, record.definition(k)))
}

// Whether the record can be cut, so that it is not refused by `Uncuttable`.
pub fn cuttable(classes: &Classes) -> bool
    ensures { result ≡ (cuttable_defs (counted (module_of classes.now.record.bytes.now))
        && cuttable_equations (module_of classes.now.record.bytes.now).equations) }
{
    cuttable_defs(classes) && cuttable_equations(&classes.record)
}
