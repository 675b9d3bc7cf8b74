ghost use Rattle.std.specs.Prelude.{◌≡◌, List, ℕ};
ghost use Rattle.std.specs.Str.{bytes_eq};
ghost use Rattle.rule_language.specs.Names.{has_name};

use crate::book::Rule;
use preorder::Row;

/// What has a name.
pub trait Named {
    // the bytes of the name
    ghost name_of: { Self → List ℕ };

    /// Whether its name is that of these bytes.
    fn is_named(&self, name: &[u8]) -> bool
        ensures { result ≡ bytes_eq (name_of self.now) name.now };
}

impl Named for Rule {
    ghost name_of = { λ rule. rule.name };

    fn is_named(&self, name: &[u8]) -> bool {
        self.name.as_slice() == name
    }
}

impl Named for Row {
    ghost name_of = { λ row. row.name };

    fn is_named(&self, name: &[u8]) -> bool {
        self.name.as_slice() == name
    }
}

/// Whether one of the items has the name of these bytes.
#[tactic(auto, unfolding(crate::specs::Names::has_name))]
pub fn has_name<T: Named>(items: &[T], name: &[u8]) -> bool
    ensures { result ≡ has_name T.name_of name.now items.now }
{
    items.iter().any(|item| item.is_named(name))
}
