// Pairs of engines by the keys that they hold.
// No trait on `Pair`: its own methods have these names, and would hide the trait's.
ghost use Rattle.std.specs.Prelude.{◌≡◌};
ghost use Rattle.std.specs.Result.{result_err};
ghost use Rattle.law.specs.Kind.{idle as idle_of, check_of, seal as seal_of, unseal};
ghost use Rattle.law.specs.Checks.{first_of};
ghost use Rattle.octets.specs.Octets.{Bytes};
ghost use Rattle.sealed_store.specs.Told.{kind_of, keys_in, load_checks, Loaded};

use engine::Engine;
use refusal::Refusal;
use sealing::pair::Pair;

// Engines that no state uses: they hold sixteen zero bytes.
#[tactic(auto, unfolding(law::specs::Kind::keys_of))]
pub fn idle<E: Engine>() -> Pair<E>
    ensures { keys_in E.Engine result ≡ idle_of (kind_of E.Engine) }
{
    Pair::new()
}

// New engines under a pair of keys.
#[tactic(auto, unfolding(law::specs::Kind::keys_of))]
pub fn loaded<E: Engine + Drop>(keys: &[u8]) -> Result<Pair<E>, Refusal>
    ensures bytes { Bytes keys.now }
    ensures answer { result_err result ≡ first_of (load_checks (kind_of E.Engine) keys.now) }
    ensures keys { Loaded E.Engine keys.now result }
{
    let mut pair = Pair::new();
    pair.load(keys)?;
    Ok(pair)
}

#[tactic(auto, unfolding(law::specs::Kind::check_of))]
pub fn check_value<E: Engine>(pair: &Pair<E>) -> [u8; 4]
    ensures { result ≡ check_of (keys_in E.Engine pair.now) }
{
    pair.check_value()
}

#[tactic(auto, unfolding(law::specs::Kind::seal))]
pub fn seal<E: Engine>(pair: &Pair<E>, n: u64, bytes: &mut [u8; 128])
    ensures { bytes.new ≡ seal_of (keys_in E.Engine pair.now) n bytes.old }
{
    pair.seal(n, bytes);
}

#[tactic(auto, unfolding(law::specs::Kind::unseal))]
pub fn open<E: Engine>(pair: &Pair<E>, n: u64, bytes: &mut [u8; 128])
    ensures { bytes.new ≡ unseal (keys_in E.Engine pair.now) n bytes.old }
{
    pair.open(n, bytes);
}
