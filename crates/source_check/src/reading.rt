// Nodes and lists fit (refusal `Entry`), and every node is used exactly once (refusal `Uses`): marks, none at the start, set at each use.
ghost use Rattle.std.specs.Prelude.{◌≡◌, ◌+◌, ◌*◌, ◌≤◌, ◌<◌, length, ltb, ok_or};
ghost use Rattle.marks.specs.Indices.{same};
ghost use Rattle.marks.specs.Marks.{all_once};
ghost use Rattle.source.specs.Nodes.{entry_of, item_fits, result_fits, chain_fits, form_children, shape_children};
ghost use Rattle.source.specs.Nodes.{children_of, children_fit, nodes_fit, publics_fit, definitions_fit, expressions_fit};
ghost use Rattle.source.specs.Uses.{result_uses, chain_uses, children_use, by_nodes, by_definitions, by_expressions};
ghost use Rattle.source_check.specs.Marks.{verdict, outcome, Judged, is_of, sort_fits};
ghost use Rattle.source.specs.Layout.{layout_of, DEFINITION-WORDS};
ghost use Rattle.source.specs.Record.{shaped, used_once};
ghost use Rattle.records.specs.SourceRecord.{NODES};

use super::nodes::Nodes;
use marks::Marks;
use records::refusals::Refusal;
use records::source_record::{NO_LINK, NODES};
use source::lists::{definition_at, expression_at, public_at};
use source::{Chain, Form, Layout, Node, Shape};

// What sort of node a word names.
#[derive(Clone, Copy)]
enum Sort {
    Expression,
    Pattern,
}

impl Sort {
    // Whether a node is of the sort.
    #[tactic(auto, unfolding(crate::specs::Marks::is_of, source::specs::Nodes::is_expression, source::specs::Nodes::is_pattern))]
    fn is_of(self, node: Node) -> bool
        ensures { result ≡ is_of self (Some node) }
    {
        match self {
            Sort::Expression => matches!(node, Node::Expression(_)),
            Sort::Pattern => matches!(node, Node::Pattern(_)),
        }
    }
}

// The next node is the one with the index `count`: what it uses stands before it.
// Kept as it is: the contracts hand on bytes, place and count one by one, since the definitions take these, and no struct.
// Kept as it is: the marks are lent beside the nodes, since `first` copies these cut to the first ones, which a struct with the marks in it could not be.
impl Nodes<'_> {
    // Node k, which must be one.
    fn read(&self, k: usize) -> Result<Node, Refusal>
        requires { k < self.now.count }
        ensures { result ≡ ok_or (entry_of self.now.bytes.now self.now.at k) Refusal.Entry }
    {
        self.entry(k).ok_or(Refusal::Entry)
    }

    // The next node uses a node, which must be one of these, of the sort.
    fn use_node(&self, sort: Sort, x: usize, marks: &mut Marks<NODES>) -> Result<(), Refusal>
        ensures { Judged result (sort_fits self.now.bytes.now self.now.at sort self.now.count x) marks.old marks.new (same x) }
    {
        if self.count <= x {
            return Err(Refusal::Entry);
        }
        if !sort.is_of(self.read(x)?) {
            return Err(Refusal::Entry);
        }
        marks.add(x);
        Ok(())
    }

    // The next node uses a name.
    // Kept as it is: an `if` of Ok and Err, here and below; `then_some(()).ok_or(..)` is no plainer, since its Option is made only to become the Result.
    fn use_name(&self, v: usize) -> Result<(), Refusal>
        ensures { result ≡ verdict Refusal.Entry (ltb v self.now.names) }
    {
        if v < self.names {
            Ok(())
        } else {
            Err(Refusal::Entry)
        }
    }

    // The next node, a link, uses its item.
    fn use_item(&self, chain: Chain, x: usize, marks: &mut Marks<NODES>) -> Result<(), Refusal>
        ensures { Judged result (item_fits self.now.bytes.now self.now.at chain self.now.count x) marks.old marks.new (same x) }
    {
        match chain {
            Chain::Parameters | Chain::Arms => self.use_node(Sort::Pattern, x, marks),
            Chain::Items => self.use_node(Sort::Expression, x, marks),
        }
    }

    // The next node, a link, uses its arm result, where its chain has such.
    fn use_result(&self, chain: Chain, x: usize, marks: &mut Marks<NODES>) -> Result<(), Refusal>
        ensures { Judged result (result_fits self.now.bytes.now self.now.at chain self.now.count x) marks.old marks.new (result_uses chain x) }
    {
        match chain {
            Chain::Arms => self.use_node(Sort::Expression, x, marks),
            Chain::Parameters | Chain::Items => {
                if x == 0 { Ok(()) } else { Err(Refusal::Entry) }
            }
        }
    }

    // The next node uses a chain of links, from its first link on, with what they use. Each next link stands before the one that names it.
    fn use_chain(&self, chain: Chain, first: usize, marks: &mut Marks<NODES>) -> Result<(), Refusal>
        ensures { Judged result (chain_fits self.now.bytes.now self.now.at chain self.now.count first) marks.old marks.new
            (chain_uses self.now.bytes.now self.now.at chain self.now.count first) }
    {
        let mut above = self.count;
        let mut link = first;
        while link < above {
            let Node::Link(item, next, result) = self.read(link)? else {
                return Err(Refusal::Entry);
            };
            marks.add(link);
            let before = self.first(link);
            before.use_item(chain, item, marks)?;
            before.use_result(chain, result, marks)?;
            if next == NO_LINK {
                return Ok(());
            }
            above = link;
            link = next;
        }
        Err(Refusal::Entry)
    }

    // The next node is an expression of this form.
    fn use_form(&self, form: Form, marks: &mut Marks<NODES>) -> Result<(), Refusal>
        ensures { Judged result (children_fit self.now.bytes.now self.now.at self.now.names self.now.count (form_children form)) marks.old marks.new
            (children_use self.now.bytes.now self.now.at self.now.count (form_children form)) }
    {
        match form {
            Form::Unit | Form::Nil | Form::Constant(_) => Ok(()),
            Form::Variable(v) => self.use_name(v),
            Form::Negate(x) => self.use_node(Sort::Expression, x, marks),
            Form::Product(x, y)
            | Form::Cons(x, y)
            | Form::Infix(_, x, y)
            | Form::Application(x, y) => {
                self.use_node(Sort::Expression, x, marks)?;
                self.use_node(Sort::Expression, y, marks)
            }
            Form::Function(l, y) => {
                self.use_chain(Chain::Parameters, l, marks)?;
                self.use_node(Sort::Expression, y, marks)
            }
            Form::Let(p, x, y) => {
                self.use_node(Sort::Pattern, p, marks)?;
                self.use_node(Sort::Expression, x, marks)?;
                self.use_node(Sort::Expression, y, marks)
            }
            Form::Match(x, l) => {
                self.use_node(Sort::Expression, x, marks)?;
                self.use_chain(Chain::Arms, l, marks)
            }
            Form::Sequence(l) => self.use_chain(Chain::Items, l, marks),
        }
    }

    // The next node is a pattern of this shape.
    fn use_shape(&self, shape: Shape, marks: &mut Marks<NODES>) -> Result<(), Refusal>
        ensures { Judged result (children_fit self.now.bytes.now self.now.at self.now.names self.now.count (shape_children shape)) marks.old marks.new
            (children_use self.now.bytes.now self.now.at self.now.count (shape_children shape)) }
    {
        match shape {
            Shape::Unit | Shape::Nil | Shape::Constant(_) => Ok(()),
            Shape::Variable(v) => self.use_name(v),
            Shape::As(p, v) => {
                self.use_node(Sort::Pattern, p, marks)?;
                self.use_name(v)
            }
            Shape::Product(p, q) | Shape::Cons(p, q) => {
                self.use_node(Sort::Pattern, p, marks)?;
                self.use_node(Sort::Pattern, q, marks)
            }
        }
    }

    // The next node uses what its words name. A link by itself asks nothing: its chain does.
    fn use_children(&self, node: Node, marks: &mut Marks<NODES>) -> Result<(), Refusal>
        ensures { let children = children_of (Some node) in
            Judged result (children_fit self.now.bytes.now self.now.at self.now.names self.now.count children) marks.old marks.new
            (children_use self.now.bytes.now self.now.at self.now.count children) }
    {
        match node {
            Node::Expression(form) => self.use_form(form, marks),
            Node::Pattern(shape) => self.use_shape(shape, marks),
            Node::Link(_, _, _) => Ok(()),
        }
    }

    // Whether the nodes fit; then what they use is marked.
    // Kept as it is: loops by index, here and below: what is left of a list is said by its index, in definitions and invariants.
    fn read_nodes(&self, marks: &mut Marks<NODES>) -> Result<(), Refusal>
        ensures { Judged result (nodes_fit self.now.bytes.now self.now.at self.now.names self.now.count) marks.old marks.new
            (by_nodes self.now.bytes.now self.now.at self.now.count) }
    {
        for k in 0..self.count {
            let node = self.read(k)?;
            self.first(k).use_children(node, marks)?;
        }
        Ok(())
    }

    // Whether n words from word `list` on are names.
    fn read_publics(&self, list: usize, n: usize) -> Result<(), Refusal>
        requires { 4 * (list + n) ≤ length self.now.bytes.now }
        ensures { result ≡ verdict Refusal.Entry (publics_fit self.now.bytes.now self.now.names list n) }
    {
        for k in 0..n {
            self.use_name(public_at(self.bytes, list, k))?;
        }
        Ok(())
    }

    // Whether n pairs from word `list` on are a pattern and an expression of the nodes; then these are marked.
    fn read_definitions(
        &self,
        list: usize,
        n: usize,
        marks: &mut Marks<NODES>,
    ) -> Result<(), Refusal>
        requires { 4 * (list + DEFINITION-WORDS * n) ≤ length self.now.bytes.now }
        ensures { Judged result (definitions_fit self.now.bytes.now self.now.at self.now.count list n) marks.old marks.new
            (by_definitions self.now.bytes.now list n) }
    {
        for k in 0..n {
            let d = definition_at(self.bytes, list, k);
            self.use_node(Sort::Pattern, d.pattern as usize, marks)?;
            self.use_node(Sort::Expression, d.value as usize, marks)?;
        }
        Ok(())
    }

    // Whether n words from word `list` on are expressions of the nodes; then these are marked.
    fn read_expressions(
        &self,
        list: usize,
        n: usize,
        marks: &mut Marks<NODES>,
    ) -> Result<(), Refusal>
        requires { 4 * (list + n) ≤ length self.now.bytes.now }
        ensures { Judged result (expressions_fit self.now.bytes.now self.now.at self.now.count list n) marks.old marks.new
            (by_expressions self.now.bytes.now list n) }
    {
        for k in 0..n {
            let x = expression_at(self.bytes, list, k) as usize;
            self.use_node(Sort::Expression, x, marks)?;
        }
        Ok(())
    }

    // Whether each node is used once.
    fn used_once(&self, marks: &Marks<NODES>) -> bool
        ensures { result ≡ all_once marks.now self.now.count }
    {
        marks.all_once(self.count)
    }
}

// Whether nodes, publics, definitions and expressions fit (else `Entry`), and then every node is used once (else `Uses`).
pub fn read_trees(s: &[u8], l: Layout) -> Result<(), Refusal>
    requires { (l ≡ layout_of s.now) × ((l.text_at ≤ length s.now) × (l.nodes ≤ NODES)) }
    ensures { result ≡ outcome (shaped s.now) (used_once s.now) }
{
    let nodes = Nodes {
        bytes: s,
        at: l.nodes_at,
        count: l.nodes,
        names: l.names,
    };
    let mut marks = Marks::new();
    nodes.read_nodes(&mut marks)?;
    nodes.read_publics(l.publics_at, l.publics)?;
    nodes.read_definitions(l.definitions_at, l.definitions, &mut marks)?;
    nodes.read_expressions(l.expressions_at, l.expressions, &mut marks)?;
    if nodes.used_once(&marks) {
        Ok(())
    } else {
        Err(Refusal::Uses)
    }
}
