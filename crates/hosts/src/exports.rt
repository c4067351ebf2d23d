// The functions that C sees: names, parameters and numbers are those of its header.
ghost use Rattle.camellia.specs.Cipher.{E, D};
ghost use Rattle.camellia.specs.Laws.{takes};
ghost use Rattle.hosts.specs.Calls.{Served, under, seals, opens};

use crate::call::{call, number};
use crate::way::{Open, Seal};
use camellia_byte::ByteCamellia;
use camellia_long::cipher::LongCamellia;
use camellia_word::WordCamellia;

#[unsafe(no_mangle)]
pub extern "C" fn savecard_seal_byte(pair: &mut [u8], frame: u64, bytes: &mut [u8]) -> u32
    ensures { Served takes (under seals E D) pair.old frame bytes.old result pair.new bytes.new }
{
    number(call::<ByteCamellia, Seal>(pair, frame, bytes))
}

#[unsafe(no_mangle)]
pub extern "C" fn savecard_seal_word(pair: &mut [u8], frame: u64, bytes: &mut [u8]) -> u32
    ensures { Served takes (under seals E D) pair.old frame bytes.old result pair.new bytes.new }
{
    number(call::<WordCamellia, Seal>(pair, frame, bytes))
}

#[unsafe(no_mangle)]
pub extern "C" fn savecard_seal_long(pair: &mut [u8], frame: u64, bytes: &mut [u8]) -> u32
    ensures { Served takes (under seals E D) pair.old frame bytes.old result pair.new bytes.new }
{
    number(call::<LongCamellia, Seal>(pair, frame, bytes))
}

#[unsafe(no_mangle)]
pub extern "C" fn savecard_open_byte(pair: &mut [u8], frame: u64, bytes: &mut [u8]) -> u32
    ensures { Served takes (under opens E D) pair.old frame bytes.old result pair.new bytes.new }
{
    number(call::<ByteCamellia, Open>(pair, frame, bytes))
}

#[unsafe(no_mangle)]
pub extern "C" fn savecard_open_word(pair: &mut [u8], frame: u64, bytes: &mut [u8]) -> u32
    ensures { Served takes (under opens E D) pair.old frame bytes.old result pair.new bytes.new }
{
    number(call::<WordCamellia, Open>(pair, frame, bytes))
}

#[unsafe(no_mangle)]
pub extern "C" fn savecard_open_long(pair: &mut [u8], frame: u64, bytes: &mut [u8]) -> u32
    ensures { Served takes (under opens E D) pair.old frame bytes.old result pair.new bytes.new }
{
    number(call::<LongCamellia, Open>(pair, frame, bytes))
}
