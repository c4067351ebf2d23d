// What every layer means by bytes; the words are in specs/.
#![tactic(auto)]

ghost use Rattle.octets.specs.Octets.{Bytes};

// What the type of bytes says of them. A proof learns it of a slice on which a method is called.
pub fn octets(bytes: &[u8])
    ensures { Bytes bytes.now }
{
    let _ = bytes.is_empty();
}
