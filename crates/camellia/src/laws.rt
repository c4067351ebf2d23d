ghost use Rattle.camellia.specs.Laws.{Undone, Sized};

// Deciphering undoes enciphering and enciphering undoes deciphering, under every key of a length that is taken.
pub fn undone()
    ensures { Undone }
{}

// A block enciphered or deciphered is a block.
pub fn sized()
    ensures { Sized }
{}
