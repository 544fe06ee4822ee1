// The names that choices go by.
ghost use Rattle.std.specs.Prelude.{◌≡◌, ℕ, List, Contains};
ghost use Rattle.choice.specs.Names.{Named};

// No choice goes by that name.
#[derive(Clone, Copy, Debug, PartialEq, Eq)]
pub struct UnknownName;

// What is chosen by a name from a few, of which no two share a name. FromStr and Display stand three times, once for each choice,
// since `impl<C: Choice> FromStr for C` is refused, as in Rust.
pub trait Choice: Copy + 'static {
    ghost name_of: { Self → List ℕ };

    fn all() -> &'static [Self]
        ensures { (choice : Self) → Contains result.now choice };

    fn name(self) -> &'static str
        ensures { result.now ≡ name_of self };

    ghost apart: { (a b : Self) → name_of a ≡ name_of b → a ≡ b };
}

// The choice of that name: what `from_str` does for each of them.
pub fn by_name<C: Choice>(name: &str) -> Result<C, UnknownName>
    ensures { Named C.name_of name.now result }
{
    C::all()
        .iter()
        .find(|choice| choice.name() == name)
        .copied()
        .ok_or(UnknownName)
}
