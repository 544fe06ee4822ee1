// The front that every block kind shares: context, parent digest and height.
ghost use Rattle.std.specs.Prelude.{◌≡◌};
ghost use Rattle.block.specs.Heads.{head_of};

use register::counters::Height;
use register::words::read_u64;

#[derive(Clone, Copy, Debug, PartialEq, Eq)]
pub struct Head {
    pub context_len: usize,
    pub height: Height,
}

impl Head {
    // None where the blob ends before the height does.
    pub fn read(blob: &[u8]) -> Option<Head>
        ensures { result ≡ head_of blob.now }
    {
        let context_len = usize::from(*blob.first()?);
        let height = Height(read_u64(blob, context_len + 33)?);
        Some(Head {
            context_len,
            height,
        })
    }
}
