// Why shards do not give their block: the fault of the layer below, whole.
ghost use Rattle.std.specs.Prelude.{◌≡◌};
ghost use Rattle.reconstruct.specs.declared.error.Error.TheVariants.{Blob, Coding};

use block::blob::Misfit;
use scheme::fault::Fault;

#[derive(Clone, Copy, Debug, PartialEq, Eq)]
pub enum Error {
    Coding(Fault),
    Blob(Misfit),
}

// Both `From` are by hand: what `#[derive(Error)]` of thiserror writes has no `from_gives`, so a `?` would not tell which error.
impl From<Fault> for Error {
    ghost from_gives = { λ f r. r ≡ Coding f };

    fn from(fault: Fault) -> Error {
        Error::Coding(fault)
    }
}

impl From<Misfit> for Error {
    ghost from_gives = { λ m r. r ≡ Blob m };

    fn from(misfit: Misfit) -> Error {
        Error::Blob(misfit)
    }
}
