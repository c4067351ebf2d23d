// The layers of the cipher on two halves, in order and in the reverse order.
ghost use Rattle.camellia.specs.Keys.{reversed};
ghost use Rattle.camellia.specs.Cipher.{encrypt as encrypt_of};
ghost use Rattle.std.specs.Prelude.{◌≡◌, ℕ, List};
ghost use Rattle.std.specs.Iterator.{IsFinite};
ghost use Rattle.std.proofs.lemmas.Iterator.{YieldsList};
ghost use Rattle.camellia.specs.declared.plan.Layer.{Layer};
ghost use Rattle.camellia.specs.Rounds.{st, step as step_of, swapped as swapped_of, whitened as whitened_of, turned as turned_of};
ghost use Rattle.camellia.specs.declared.plan.Layer.TheVariants.{Round, Fl};
ghost use Rattle.camellia_rounds.specs.Told.{state_of, schedule_of, exchanged as exchanged_of};

use crate::half::Half;
use crate::schedule::Schedule;
use camellia::plan::{Layer, Whitening};

#[derive(Clone, Copy)]
pub struct Halves<H> {
    pub left: H,
    pub right: H,
}

impl<H: Half> From<(u64, u64)> for Halves<H> {
    ghost from_gives = { λ x s. state_of H.value s ≡ st x.0 x.1 };

    fn from(halves: (u64, u64)) -> Self {
        Halves {
            left: H::from(halves.0),
            right: H::from(halves.1),
        }
    }
}

impl<H: Half> From<Halves<H>> for (u64, u64) {
    ghost from_gives = { λ s x. st x.0 x.1 ≡ state_of H.value s };

    fn from(s: Halves<H>) -> Self {
        (s.left.into(), s.right.into())
    }
}

impl<H: Half> Halves<H> {
    pub(crate) fn swapped(self) -> Self
        ensures { state_of H.value result ≡ swapped_of (state_of H.value self) }
    {
        Halves {
            left: self.right,
            right: self.left,
        }
    }

    pub(crate) fn whitened(self, a: u64, b: u64) -> Self
        ensures { state_of H.value result ≡ whitened_of a b (state_of H.value self) }
    {
        Halves {
            left: self.left.xor(H::from(a)),
            right: self.right.xor(H::from(b)),
        }
    }

    #[inline(always)]
    pub(crate) fn round(self, k: u64) -> Self
        ensures { state_of H.value result ≡ step_of (Round k) (state_of H.value self) }
    {
        Halves {
            left: self.right.xor(self.left.f(H::from(k))),
            right: self.left,
        }
    }

    #[inline(always)]
    fn fl(self, a: u64, b: u64) -> Self
        ensures { state_of H.value result ≡ step_of (Fl a b) (state_of H.value self) }
    {
        Halves {
            left: self.left.fl(H::from(a)),
            right: self.right.fl_inverse(H::from(b)),
        }
    }

    #[inline(always)]
    fn step(self, layer: Layer<u64>) -> Self
        ensures { state_of H.value result ≡ step_of layer (state_of H.value self) }
    {
        match layer {
            Layer::Round(k) => self.round(k),
            Layer::Fl(a, b) => self.fl(a, b),
        }
    }

    // E with these whitening keys and these layers, in the order in which they come.
    #[inline(always)]
    fn enciphered<I: Iterator<Item = Layer<u64>>>(self, kw: Whitening<u64>, layers: I) -> Self
        requires can { I.can_next layers }
        requires finite { IsFinite (I.remaining layers) }
        ensures { (ys : List (Layer ℕ)) → YieldsList I.next_gives (λ y. y) layers ys
            → state_of H.value result ≡ encrypt_of (record { kw = kw; layers = ys }) (state_of H.value self) }
    {
        let mut s = self.whitened(kw.kw1, kw.kw2);
        for layer in layers {
            s = s.step(layer);
        }
        s.swapped().whitened(kw.kw3, kw.kw4)
    }

    pub(crate) fn encrypted(self, k: &Schedule) -> Self
        ensures { state_of H.value result ≡ encrypt_of (schedule_of k.now) (state_of H.value self) }
    {
        self.enciphered(k.kw, k.layers().iter().copied())
    }

    pub(crate) fn decrypted(self, k: &Schedule) -> Self
        ensures { state_of H.value result
            ≡ encrypt_of (reversed (schedule_of k.now)) (state_of H.value self) }
    {
        let layers = k.layers().iter().rev();
        self.enciphered(exchanged(k.kw), layers.map(|layer| turned(*layer)))
    }
}

// As all subkeys change places, so do the two of an FL layer ..
fn turned(layer: Layer<u64>) -> Layer<u64>
    ensures { result ≡ turned_of layer }
{
    match layer {
        Layer::Round(k) => Layer::Round(k),
        Layer::Fl(a, b) => Layer::Fl(b, a),
    }
}

// .. and the whitening keys of the two ends.
fn exchanged(kw: Whitening<u64>) -> Whitening<u64>
    ensures { result ≡ exchanged_of kw }
{
    Whitening {
        kw1: kw.kw3,
        kw2: kw.kw4,
        kw3: kw.kw1,
        kw4: kw.kw2,
    }
}
