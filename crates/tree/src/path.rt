// Shards of a hash tree: a payload and the siblings on its way to the root.
ghost use Rattle.std.specs.Prelude.{◌≡◌, ◌/◌, ◌%◌, length};
ghost use Rattle.tree.specs.Trees.{above, climbed, depth, path, payload, rooted};

use hash::Hash;

// How many levels a tree with the leaves 0 to `last` has above them: the fewest that give it as many leaves.
pub fn depth(last: u32) -> u32
    ensures { result ≡ depth last }
{
    32 - last.leading_zeros()
}

// A shard's payload and its path, the siblings behind it; the payload is empty where the shard is too short for them.
fn split(depth: u32, shard: &[u8]) -> (&[u8], &[u8])
    ensures payload { result.0.now ≡ payload depth shard.now }
    ensures path { result.1.now ≡ path depth shard.now }
{
    let siblings = 32 * (depth as usize);
    shard.split_at(shard.len().saturating_sub(siblings))
}

// What stands before the siblings; empty where nothing does.
pub fn payload(depth: u32, shard: &[u8]) -> &[u8]
    ensures { result.now ≡ payload depth shard.now }
{
    split(depth, shard).0
}

// The node above a child at `place` of its level and the child's sibling.
fn above<D: Hash>(hash: &D, place: u16, child: &[u8], sibling: &[u8]) -> [u8; 32]
    ensures { result ≡ above (D.Hash.digest hash.now) (place % 2) child.now sibling.now }
{
    if place % 2 == 0 {
        hash.hash_parts(child, sibling)
    } else {
        hash.hash_parts(sibling, child)
    }
}

// The node that a leaf and its path lead to.
fn climb<D: Hash>(hash: &D, leaf: [u8; 32], index: u16, path: &[u8]) -> [u8; 32]
    ensures { result ≡ climbed (D.Hash.digest hash.now) leaf index path.now (length path.now / 32) }
{
    let mut node = leaf;
    let mut place = index;
    for sibling in path.chunks_exact(32) {
        node = above(hash, place, &node, sibling);
        place /= 2;
    }
    node
}

// Whether a shard has a payload and its path leads from there to the root.
pub fn rooted<D: Hash>(hash: &D, depth: u32, root: &[u8], index: u16, shard: &[u8]) -> bool
    ensures { result ≡ rooted (D.Hash.digest hash.now) depth root.now index shard.now }
{
    let (payload, path) = split(depth, shard);
    !payload.is_empty() && climb(hash, hash.hash(payload), index, path).as_slice() == root
}
