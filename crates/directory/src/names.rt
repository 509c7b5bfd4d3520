// Names compare without case: byte by byte, bytes that differ as the lent table folds them. The last byte comes first: names of weeks begin
// alike. The table is lent with `Folds` and has no type of its own: `same_name` and `has_name`, which docs/ name, ask for it so, and with
// them the functions of `checks` that hand it on.
ghost use Rattle.std.specs.Prelude.{◌≡◌};
ghost use Rattle.model.specs.Directory.{same_byte, same_name};
ghost use Rattle.directory.specs.Folding.{Folds};

// Whether two bytes of names are equal.
fn same_byte(x: u8, y: u8, fold: &[u8; 256]) -> bool
    requires { Folds fold.now }
    ensures { result ≡ same_byte x y }
{
    x == y || fold[x as usize] == fold[y as usize]
}

// Whether two names are equal.
pub fn same_name(a: &[u8], b: &[u8], fold: &[u8; 256]) -> bool
    requires { Folds fold.now }
    ensures { result ≡ same_name a.now b.now }
{
    if a.len() != b.len() {
        return false;
    }
    for i in (0..a.len()).rev() {
        if !same_byte(a[i], b[i], fold) {
            return false;
        }
    }
    true
}
