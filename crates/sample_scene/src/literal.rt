ghost use Rattle.std.specs.Prelude.{◌≡◌, IsTrue};
ghost use Rattle.preorder.specs.Name.{is_name};

use preorder::Name;

/// The name with these bytes.
pub fn name(text: &[u8]) -> Name
    requires { IsTrue (is_name text.now) }
    ensures { result ≡ text.now }
{
    match Name::new(text) {
        Some(name) => name,
        None => unreachable!(),
    }
}
