// The numbers that say where a constraint record stands in the lists that it is made in.
ghost use Rattle.pass_entry.specs.Sizes.{Ordered, ordered-prop, Bounded, bounded-prop};

// The next id; the words of the body up to the provers, up to the equalities, up to the kept definitions, and in all; the nodes.
// Kept as it is: places in two lent slices: a Vec needs a heap, and the contracts say what stands in a slice behind these places, which an ArrayVec has not.
// Kept as it is: no layout made of a header: they are where the writers stopped, in a body without its header, and not computed of counts.
#[derive(Clone, Copy)]
pub struct Built {
    pub next: u32,
    pub publics: usize,
    pub start: usize,
    pub equalities: usize,
    pub kept: usize,
    pub nodes: usize,
    pub ghost ordered: { Ordered publics start equalities kept } by { ordered-prop },
    pub ghost bounded: { Bounded kept nodes } by { bounded-prop },
}
