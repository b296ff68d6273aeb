// What stands among the globals before definitions: fresh, iter and fold, found by their texts, and the publics.
ghost use Rattle.std.specs.Prelude.{◌≡◌, true, [], ◌+◌, ◌*◌, ◌≤◌, ◌<◌, length, find, IfSome};
ghost use Rattle.std.specs.List.{range_with_len};
ghost use Rattle.marks.specs.Indices.{rows};
ghost use Rattle.source.specs.Names.{name_of};
ghost use Rattle.source.specs.Nodes.{publics_fit};
ghost use Rattle.numbering.specs.Numbering.{registered, same_text};
ghost use Rattle.numbering.specs.Walks.{Holds, Published, Registered, OnlyGlobals, no_publics};
ghost use Rattle.records.specs.Intrinsics.{FIRST-FREE-ID, id_of};
ghost use Rattle.records.specs.SourceRecord.{PUBLICS};

use super::rows::Scopes;
use records::intrinsics::Intrinsic;
use records::source_record::PUBLICS;
use source::lists::public_at;
use source_check::names::Names;

// The index of the first name with this text.
fn index_of(names: &Names, t: &[u8]) -> Option<usize>
    ensures below { IfSome result (λ k. k < names.now.count) }
    ensures first { result ≡ find (λ k. same_text t.now (name_of names.now.bytes.now names.now.text k)) (range_with_len 0 names.now.count) }
{
    (0..names.count).find(|k| t == names.name(*k))
}

impl Scopes {
    // The name with this text, if there is one, has the intrinsic's id.
    fn register(&mut self, names: &Names, t: &[u8], intrinsic: Intrinsic)
        ensures { Registered names.now.bytes.now t.now names.now.text names.now.count (id_of intrinsic) self.old self.new }
    {
        if let Some(k) = index_of(names, t) {
            self.globals[k] = Some(intrinsic.id() as u16);
        }
    }

    // fresh, iter and fold, as transform.rs registers them.
    pub fn register_intrinsics(&mut self, names: &Names)
        ensures rest { OnlyGlobals self.old self.new × (self.new.next ≡ self.old.next) }
        ensures holds { Holds self.old.globals []
            → Holds self.new.globals (registered (rows names.now.count 0 (name_of names.now.bytes.now names.now.text))).globals }
    {
        self.register(names, b"fresh", Intrinsic::Fresh);
        self.register(names, b"iter", Intrinsic::Iter);
        self.register(names, b"fold", Intrinsic::Fold);
    }

    // The ids of the publics whose names start at word `list`, each at its position, and 0 elsewhere: publics are globals, never locals.
    pub fn number_publics(&mut self, names: &Names, list: usize, count: usize) -> [u32; PUBLICS]
        requires long { 4 * (list + count) ≤ length names.now.bytes.now }
        requires fit { publics_fit names.now.bytes.now names.now.count list count ≡ true }
        requires few { (count ≤ PUBLICS) × (self.old.next ≤ FIRST-FREE-ID) }
        ensures { Published names.now.bytes.now list count 0 self.old no_publics self.new result }
    {
        let mut publics = [0u32; PUBLICS];
        // Kept as it is: the index reads the record too, and an iterator over the first entries of the array is no plainer.
        for i in 0..count {
            let x = public_at(names.bytes, list, i);
            publics[i] = self.number_variable(x);
        }
        publics
    }
}
