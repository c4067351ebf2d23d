// The fold of two whitening keys. An offset on one half moves through the layers: a round that reads that half takes it in
// its key, and FL turns it into another offset. So kw2 goes down into kw3 and kw4 up into kw1, and a block takes only these.
ghost use Rattle.std.specs.Prelude.{◌≡◌, length};
ghost use Rattle.camellia_fold.specs.Fold.{through_fl_inverse, on_right, folded as folded_of, folded_back, fold};
ghost use Rattle.camellia_subkeys.specs.Groups.{rounds_of, plain_of, schedule_of};

use crate::keys::{FlKeys, FoldedKeys, Group, Groups, Subkeys};
use camellia::plan::Whitening;
use camellia_rounds::parts::Parts;

// What an offset of the right half becomes under an FL layer: as FL's inverse, but an `or` keeps it only where the key is 0.
fn through(d: u64, k: u64) -> u64
    ensures { result ≡ through_fl_inverse d k }
{
    let (d, k) = (Parts::from(d), Parts::from(k));
    let left = d.right & !k.right ^ d.left;
    let right = (left & k.left).rotate_left(1) ^ d.right;
    Parts { left, right }.into()
}

// Going up, the offset stands on the half that odd rounds read; going down, even rounds read it.
fn woven(rounds: &[u64; 6], up: u64, down: u64) -> [u64; 6]
    ensures { rounds_of result ≡ folded_back (on_right up) (folded_of (on_right down) (rounds_of rounds.now)) }
{
    let [a, b, c, d, e, f] = *rounds;
    [a ^ up, b ^ down, c ^ up, d ^ down, e ^ up, f ^ down]
}

impl FlKeys<u64> {
    // What an offset becomes under this layer on its way down from kw2.
    fn down(&self, d: u64) -> u64
        ensures { result ≡ through_fl_inverse d self.now.right }
    {
        through(d, self.right)
    }

    // And on its way up from kw4.
    fn up(&self, d: u64) -> u64
        ensures { result ≡ through_fl_inverse d self.now.left }
    {
        through(d, self.left)
    }
}

impl Group<u64> {
    fn woven(&self, up: u64, down: u64) -> Self
        ensures fl { result.fl ≡ self.now.fl }
        ensures six { length self.now.rounds ≡ 6 }
        ensures rounds { rounds_of result.rounds ≡ folded_back (on_right up) (folded_of (on_right down) (rounds_of self.now.rounds)) }
    {
        Group {
            fl: self.fl,
            rounds: woven(&self.rounds, up, down),
        }
    }
}

impl Subkeys<u64> {
    #[inline(always)]
    pub(crate) fn folded(&self) -> FoldedKeys
        ensures { schedule_of result ≡ fold (plain_of self.now) }
    {
        let Whitening { kw1, kw2, kw3, kw4 } = self.kw;
        let Groups {
            first,
            second,
            third,
            fourth,
        } = &self.groups;
        let second_down = second.fl.down(kw2);
        let third_down = third.fl.down(second_down);
        let (fourth, third_up, down) = match fourth {
            None => (None, kw4, third_down),
            Some(fourth) => {
                let down = fourth.fl.down(third_down);
                (Some(fourth.woven(kw4, down)), fourth.fl.up(kw4), down)
            }
        };
        let second_up = third.fl.up(third_up);
        let up = second.fl.up(second_up);
        FoldedKeys {
            kw1: kw1 ^ up,
            kw3: kw3 ^ down,
            groups: Groups {
                first: woven(first, up, kw2),
                second: second.woven(second_up, second_down),
                third: third.woven(third_up, third_down),
                fourth,
            },
        }
    }
}
