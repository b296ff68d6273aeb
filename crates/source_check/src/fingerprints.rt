// A number made of a name's bytes, so that most pairs of names are known to differ without a look at them.
ghost use Rattle.std.specs.Prelude.{◌≡◌, length};
ghost use Rattle.source_check.specs.Fingerprints.{fingerprint_of};

// A fingerprint is a polynomial in its bytes; before each step it is cut so that the next one fits a word.
const ROOM: u32 = 16777216;

const FACTOR: u32 = 31;

pub fn fingerprint(name: &[u8]) -> u32
    ensures { result ≡ fingerprint_of name.now 0 (length name.now) }
{
    let mut h = 0;
    for c in name {
        h = h % ROOM * FACTOR + u32::from(*c);
    }
    h
}
