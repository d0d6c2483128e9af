ghost use Rattle.std.specs.Prelude.{◌≡◌, true};
ghost use Rattle.rp_language.specs.Name.{is_name};

use rp_lists::Name;

/// Returns the name of `bytes`.
pub fn name(bytes: &[u8]) -> Name
    requires { is_name bytes.now ≡ true }
{
    Name::new(bytes).unwrap()
}
