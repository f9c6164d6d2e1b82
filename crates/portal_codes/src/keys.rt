//! Equality, order and hash of codes, so that they can be keys of maps.

ghost use Rattle.std.specs.Prelude.{◌≡◌, Some, bytes_eq, nat_eq, refl};
ghost use Rattle.std.specs.Ordering.{nat_cmp};
ghost use Rattle.std.specs.Hash as fed;
ghost use Rattle.std.specs.Cmp.{partial_equiv_from_equiv};
ghost use Rattle.std.specs.Cmp.Lexicographic.{
  slice_cmp,
  nat_list_eq_equiv,
  nat_list_cmp_total,
  texts_ties,
  texts_po,
};
ghost use Rattle.std.specs.Cmp.Rules.{hashing};
ghost use Rattle.std.proofs.Common.{rules};

use crate::Code;
use std::cmp::Ordering;
use std::hash::{Hash, Hasher};

impl PartialEq for Code {
    ghost eq = { bytes_eq };

    ghost laws = { partial_equiv_from_equiv nat_list_eq_equiv };

    fn eq(&self, other: &Code) -> bool {
        self.is(other)
    }
}

impl Eq for Code {
    ghost laws = { nat_list_eq_equiv };
}

impl PartialOrd for Code {
    ghost partial_cmp = { λ a b. Some (slice_cmp nat_cmp a b) };

    ghost laws = { texts_po };

    fn partial_cmp(&self, other: &Code) -> Option<Ordering> {
        Some(self.cmp(other))
    }
}

impl Ord for Code {
    ghost cmp = { slice_cmp nat_cmp };

    ghost total = { nat_list_cmp_total };

    ghost matches_partial_cmp = { λ a b. refl };

    ghost matches_eq = { texts_ties };

    fn cmp(&self, other: &Code) -> Ordering {
        self.values[..self.len].cmp(&other.values[..other.len])
    }
}

impl Hash for Code {
    ghost hash_input = { fed.slice fed.u8 };

    ghost respects_eq = { Prim.search (hashing, rules) };

    fn hash<H: Hasher>(&self, state: &mut H) {
        self.values[..self.len].hash(state);
    }
}
