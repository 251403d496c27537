// The key expansion.
ghost use Rattle.std.specs.Prelude.{◌≡◌, map};
ghost use Rattle.aes.specs.Aes.{next_key, round_keys};
ghost use Rattle.aes.specs.Columns.{unpack};

use crate::columns::Columns;
use crate::field::double;
use crate::rounds::sub_word;
use std::array;

// The round key after k, with its round constant.
fn next_key(k: Columns, constant: u8) -> Columns
    ensures { unpack result ≡ next_key constant (unpack k) }
{
    let [a, b, c, d] = k.c3.to_be_bytes();
    let core = sub_word(b, c, d, a) ^ u32::from_be_bytes([constant, 0, 0, 0]);
    let c0 = k.c0 ^ core;
    let c1 = k.c1 ^ c0;
    let c2 = k.c2 ^ c1;
    let c3 = k.c3 ^ c2;
    Columns { c0, c1, c2, c3 }
}

// Round keys 1 to 10.
pub(crate) fn expand(key: &[u8; 16]) -> [Columns; 10]
    ensures { map unpack result ≡ round_keys key.now }
{
    let mut last = Columns::from(key);
    let mut constant = 1;
    array::from_fn(|_| {
        last = next_key(last, constant);
        constant = double(constant);
        last
    })
}
