// Names of variables, locations and switches.
ghost use Rattle.std.specs.Prelude.{◌≡◌};
ghost use Rattle.lhg_plant.specs.Word.{IsName};

use crate::limits::MOST_NAME_BYTES;
use std::marker::Model;

/// A name of 1 to 32 bytes: a letter or `_`, then letters, digits and `_`.
#[derive(Clone, Copy, Debug)]
pub struct Name {
    array: [u8; MOST_NAME_BYTES],
    used: usize,
}

impl Model for Name {
    ghost use Rattle.std.specs.Prelude.{List, ℕ};

    ghost Value = { List ℕ };

    ghost use Rattle.lhg_plant.specs.NameModel.{name_bytes, IsKeptName, fields_of, fields_back};

    ghost view = { name_bytes };

    ghost invariant = { IsKeptName };

    ghost inverse = { fields_of };

    ghost inverse_ok = { fields_back };
}

impl PartialEq for Name {
    ghost use Rattle.std.specs.Str.{bytes_eq};
    ghost use Rattle.std.specs.Cmp.{partial_equiv_from_equiv};
    ghost use Rattle.std.proofs.lemmas.Cmp.{nat_list_eq_equiv};

    ghost eq = { bytes_eq };

    ghost laws = { partial_equiv_from_equiv nat_list_eq_equiv };

    fn eq(&self, other: &Name) -> bool {
        self.bytes() == other.bytes()
    }
}

impl Eq for Name {
    ghost use Rattle.std.proofs.lemmas.Cmp.{nat_list_eq_equiv};

    ghost laws = { nat_list_eq_equiv };
}

impl Name {
    /// The name of these bytes.
    pub fn new(bytes: &[u8]) -> Name
        requires { IsName bytes.now }
        ensures { result ≡ bytes.now }
    {
        let used = bytes.len();
        let mut array = [0; MOST_NAME_BYTES];
        array[..used].copy_from_slice(bytes);
        Name { array, used }
    }

    /// The bytes of the name.
    pub fn bytes(&self) -> &[u8]
        ensures same { result.now ≡ self.now }
        ensures name { IsName self.now }
    {
        &self.array[..self.used]
    }
}
