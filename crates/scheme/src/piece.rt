// A shard that lies elsewhere, with its index.

#[derive(Clone, Copy)]
pub struct Piece<'a> {
    pub index: u16,
    pub bytes: &'a [u8],
}
