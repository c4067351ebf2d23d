// N blocks at a time, in place.
ghost use Rattle.std.specs.Prelude.{◌≡◌, [], ◌∷◌, map};
ghost use Rattle.camellia.specs.Numbers.{◌⊕◌};
ghost use Rattle.camellia.specs.Functions.{F};
ghost use Rattle.camellia.specs.Rounds.{run, swapped, backward as backward_of};
ghost use Rattle.camellia.specs.Keys.{reversed};
ghost use Rattle.camellia.specs.Cipher.{to_state, to_bytes, encrypt as encrypt_of};
ghost use Rattle.camellia.specs.declared.plan.Layer.TheVariants.{Round, Fl};
ghost use Rattle.camellia_subkeys.specs.Groups.{rounds_of, group_of, layers_of, schedule_of};
ghost use Rattle.camellia_long.specs.Wide.{Mixed, states, blocks_of};

use camellia_rounds::bytes::{block, halves};
use camellia_subkeys::keys::{FlKeys, FoldedKeys, Group, Groups};
use camellia_tables::half::{f, fl, fl_inverse};

// The left halves and the right halves of N blocks, each in an array of their own: with the two halves of a block side by side
// eight blocks take from 1.02 to 1.8 times as long, by how the rounds are written.
#[derive(Drop)]
pub(crate) struct Blocks<const N: usize> {
    pub left: [u64; N],
    pub right: [u64; N],
}

// Each half takes F of the other half of its block. This loop and the two below write by index: after an adapter of `iter_mut`
// nothing is known of the array, so no `zip`.
#[inline(always)]
fn round<const N: usize>(to: &mut [u64; N], from: &[u64; N], k: u64)
    ensures { Mixed N (λ x y. y ⊕ F x k) from.now to.old to.new }
{
    for (i, x) in from.iter().enumerate() {
        to[i] ^= f(*x, k);
    }
}

// Two rounds leave the halves where they were. They are given the arrays and not the struct: of its two arrays LLVM knows that
// they lie apart, puts neighbouring blocks into vectors, and takes 3 in 100 longer for eight.
fn two<const N: usize>(left: &mut [u64; N], right: &mut [u64; N], k: u64, m: u64)
    ensures { states left.new right.new ≡ map (run (Round k ∷ Round m ∷ [])) (states left.old right.old) }
{
    round(right, left, k);
    round(left, right, m);
}

fn whiten<const N: usize>(halves: &mut [u64; N], k: u64)
    ensures { halves.new ≡ map (λ x. x ⊕ k) halves.old }
{
    for x in halves.iter_mut() {
        *x ^= k;
    }
}

impl<const N: usize> Blocks<N> {
    pub(crate) fn of(blocks: &[[u8; 16]; N]) -> Self
        ensures { blocks_of result ≡ map to_state blocks.now }
    {
        let mut left = [0; N];
        let mut right = [0; N];
        for (i, block) in blocks.iter().enumerate() {
            (left[i], right[i]) = halves(block);
        }
        Blocks { left, right }
    }

    // The halves of each block change places.
    pub(crate) fn put(&self, blocks: &mut [[u8; 16]; N])
        ensures { blocks.new ≡ map (λ s. to_bytes (swapped s)) (blocks_of self.now) }
    {
        for (i, x) in self.right.iter().enumerate() {
            blocks[i] = block(*x, self.left[i]);
        }
    }

    fn fl(&mut self, k: FlKeys<u64>)
        ensures { blocks_of self.new ≡ map (run (Fl k.left k.right ∷ [])) (blocks_of self.old) }
    {
        for x in self.left.iter_mut() {
            *x = fl(*x, k.left);
        }
        for y in self.right.iter_mut() {
            *y = fl_inverse(*y, k.right);
        }
    }

    #[inline(always)]
    fn rounds(&mut self, k: &[u64; 6])
        ensures { blocks_of self.new ≡ map (run (rounds_of k.now)) (blocks_of self.old) }
    {
        two(&mut self.left, &mut self.right, k[0], k[1]);
        two(&mut self.left, &mut self.right, k[2], k[3]);
        two(&mut self.left, &mut self.right, k[4], k[5]);
    }

    // Written out for the reason at `forward`.
    #[inline(always)]
    fn rounds_back(&mut self, k: &[u64; 6])
        ensures { blocks_of self.new ≡ map (run (backward_of (rounds_of k.now))) (blocks_of self.old) }
    {
        two(&mut self.left, &mut self.right, k[5], k[4]);
        two(&mut self.left, &mut self.right, k[3], k[2]);
        two(&mut self.left, &mut self.right, k[1], k[0]);
    }

    fn group(&mut self, group: &Group<u64>)
        ensures { blocks_of self.new ≡ map (run (group_of group.now)) (blocks_of self.old) }
    {
        self.fl(group.fl);
        self.rounds(&group.rounds);
    }

    // The two keys of an FL layer change places. Written out for the reason at `forward`.
    fn group_back(&mut self, group: &Group<u64>)
        ensures { blocks_of self.new ≡ map (run (backward_of (group_of group.now))) (blocks_of self.old) }
    {
        self.rounds_back(&group.rounds);
        self.fl(FlKeys {
            left: group.fl.right,
            right: group.fl.left,
        });
    }

    // Each way through the layers is written out. Turned round for a call instead, the keys cost 6 in 100 of eight blocks and
    // 8 in 100 of one; and a type for the way would hold the same two bodies.
    fn forward(&mut self, groups: &Groups<u64>)
        ensures { blocks_of self.new ≡ map (run (layers_of groups.now)) (blocks_of self.old) }
    {
        self.rounds(&groups.first);
        self.group(&groups.second);
        self.group(&groups.third);
        if let Some(fourth) = &groups.fourth {
            self.group(fourth);
        }
    }

    fn backward(&mut self, groups: &Groups<u64>)
        ensures { blocks_of self.new ≡ map (run (backward_of (layers_of groups.now))) (blocks_of self.old) }
    {
        if let Some(fourth) = &groups.fourth {
            self.group_back(fourth);
        }
        self.group_back(&groups.third);
        self.group_back(&groups.second);
        self.rounds_back(&groups.first);
    }

    // Up to the change of places at the end, which `put` makes.
    pub(crate) fn encrypt(&mut self, k: &FoldedKeys)
        ensures { blocks_of self.new ≡ map (λ s. swapped (encrypt_of (schedule_of k.now) s)) (blocks_of self.old) }
    {
        whiten(&mut self.left, k.kw1);
        self.forward(&k.groups);
        whiten(&mut self.right, k.kw3);
    }

    // Written out for the reason at `forward`.
    pub(crate) fn decrypt(&mut self, k: &FoldedKeys)
        ensures { blocks_of self.new ≡ map (λ s. swapped (encrypt_of (reversed (schedule_of k.now)) s)) (blocks_of self.old) }
    {
        whiten(&mut self.left, k.kw3);
        self.backward(&k.groups);
        whiten(&mut self.right, k.kw1);
    }
}
