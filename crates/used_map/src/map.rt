// Bit 0 of byte 0 of a map is address 0.
ghost use Rattle.std.specs.Prelude.{◌≡◌, [], ◌∷◌, ◌<◌, ◌^◌};
ghost use Rattle.used_map.specs.Map.{byte_bits, marked};

use machine::bit;

// A bit for each of the 65,536 addresses, in both profiles.
pub const MAP_LENGTH: usize = 8_192;

pub const BYTE_BITS: usize = 8;

// One address, where the map has its byte: the weight of its bit is added where the bit is not set.
pub fn mark(map: &mut [u8], address: usize)
    ensures { map.new ≡ marked map.old (address ∷ []) }
{
    let place = address / BYTE_BITS;
    if place < map.len() {
        let byte = map[place];
        let weight = bit_weight(address % BYTE_BITS);
        if !bit(u64::from(weight), u64::from(byte)) {
            map[place] = byte + weight;
        }
    }
}

fn bit_weight(number: usize) -> u8
    requires { number < byte_bits }
    ensures { result ≡ 2 ^ number }
{
    1 << number
}
