// The names of a record, read by their indices.
ghost use Rattle.std.specs.Prelude.{◌≡◌, ◌+◌, ◌*◌, ◌≤◌, ◌<◌, true, length};
ghost use Rattle.source.specs.Layout.{NAME-WORDS};
ghost use Rattle.source.specs.Names.{name_of, names_fit};
ghost use Rattle.records.specs.SourceRecord.{HEADER, NAMES};

use source::lists::name_at;

// The names of a record that fit: its bytes, the byte at which their text starts, and how many there are.
#[derive(Clone, Copy)]
pub struct Names<'a> {
    pub bytes: &'a [u8],
    pub text: usize,
    pub count: usize,
    ghost listed: { 4 * (HEADER + NAME-WORDS * count) ≤ length bytes.now },
    ghost fit: { names_fit bytes.now text count ≡ true },
    ghost few: { count ≤ NAMES },
}

impl Names<'_> {
    // The bytes of name k.
    // Kept as it is: that it is below the count is asked of an index, here and where nodes are read; a type for it would be made at each call.
    pub fn name(&self, k: usize) -> &[u8]
        requires { k < self.now.count }
        ensures { result.now ≡ name_of self.now.bytes.now self.now.text k }
    {
        let name = name_at(self.bytes, k);
        let start = self.text + name.offset;
        &self.bytes[start..start + name.size]
    }
}
