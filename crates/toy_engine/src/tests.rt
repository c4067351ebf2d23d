// What generic code sees of an engine: its name, its lengths and its refusal.
use crate::Identity;
use engine::Engine;
use refusal::Refusal;

fn refuses<E: Engine + Drop>(key: &[u8]) -> bool {
    E::new().load(key) == Err(Refusal::KeyLength)
}

#[test]
fn generic_code_sees_the_name_and_the_lengths(rt: HostRuntime) {
    assert!(rt; Identity::NAME == *b"identity");
    assert!(rt; Identity::accepts(16) && Identity::accepts(24) && !Identity::accepts(32));
    assert!(rt; !refuses::<Identity>(&[0; 16]));
    assert!(rt; refuses::<Identity>(&[0; 32]));
}
