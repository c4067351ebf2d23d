// Camellia with two whitening keys folded into the round keys, so that a block takes only kw1 and kw3.
#![tactic(auto)]

ghost use Rattle.camellia_fold.specs.Laws.{Folded};
ghost use Rattle.camellia_fold.specs.Samples.{Samples};

// Under every key, the folded schedule enciphers every block as the key's schedule does, and deciphers it so too.
pub fn folded()
    ensures { Folded }
{}

// The definitions at samples, the 128-bit example of RFC 3713 among them.
pub fn sampled()
    ensures { Samples }
{}
