// One frame under a lent pair, for any engine; the pair's bytes are zero afterwards on every way out.
ghost use Rattle.std.specs.Prelude.{◌≡◌};
ghost use Rattle.hosts.specs.Calls.{Served, number_of, under};

use crate::way::Way;
use engine::Engine;
use refusal::Refusal;
use sealing::pair::Pair;
use sealing::wiped::Wiped;

pub(crate) fn call<E: Engine + Drop, W: Way>(
    pair: &mut [u8],
    frame: u64,
    bytes: &mut [u8],
) -> Result<(), Refusal>
    ensures { Served E.Engine.takes (under W.over E.Engine.cipher E.Engine.inverse) pair.old frame bytes.old (number_of result) pair.new bytes.new }
{
    let lent = Wiped { keys: pair };
    let mut keys = Pair::<E>::new();
    keys.load(lent.keys)?;
    let bytes = bytes.as_mut_array().ok_or(Refusal::BufferLength(frame))?;
    W::go(&keys, frame, bytes);
    Ok(())
}

// What C sees of an answer: 0, or the refusal's number.
pub(crate) fn number(answer: Result<(), Refusal>) -> u32
    ensures { result ≡ number_of answer }
{
    match answer {
        Ok(()) => 0,
        Err(why) => u32::from(why.number()),
    }
}
