// Names given to a call: 12, and 21 for a new name.
ghost use Rattle.std.specs.Prelude.{◌≡◌};
ghost use Rattle.model.specs.Calls.{bad_name, too_long};

// 12: its length is 0 or above 255.
pub fn bad_name(name: &[u8]) -> bool
    ensures { result ≡ bad_name name.now }
{
    if name.len() == 0 {
        return true;
    }
    255 < name.len()
}

// 21: it is longer than 31.
pub fn too_long(name: &[u8]) -> bool
    ensures { result ≡ too_long name.now }
{
    31 < name.len()
}
