// The block cipher, as a call makes it from its key, once, and lends it down.
ghost use Rattle.std.specs.Prelude.{◌≡◌, length};
ghost use Rattle.aes.specs.Cipher.{cipher};
ghost use Rattle.aes.specs.KeyExpansion.{schedule};
ghost use Rattle.aes_fast.specs.Right.{round_tables, Ready};
ghost use Rattle.aes_fast.specs.OneProof.{ready_prop};
ghost use Rattle.aes_fast.specs.Halves.{halves_block};

use aes::{RoundKeys, expand_key};
use aes_fast::halves::Both;
use aes_fast::{Keyed, Tables};
use octets::strings::{Block, first};

// The key's schedule, which is ready beside the tables that are made.
pub(crate) fn round_keys(key: &[u8]) -> RoundKeys
    requires { length key.now ≡ 32 }
    ensures value { result ≡ schedule key.now }
    ensures ready { Ready round_tables result }
{
    expand_key(first(key))
}

// The tables and the round keys, lent.
#[derive(Clone, Copy)]
pub(crate) struct Cipher<'a> {
    pub(crate) keyed: Keyed<'a>,
    ghost ready: { Ready keyed.tables.now keyed.keys.now } by { ready_prop keyed.tables.now keyed.keys.now },
}

impl<'a> Cipher<'a> {
    pub(crate) fn of(tables: &'a Tables, keys: &'a RoundKeys) -> Cipher<'a>
        requires { Ready tables.now keys.now }
        ensures { (result.keyed.tables.now ≡ tables.now) × (result.keyed.keys.now ≡ keys.now) }
    {
        Cipher {
            keyed: Keyed { tables, keys },
        }
    }

    pub(crate) fn encrypt(self, b: Block) -> Block
        ensures { result ≡ cipher self.entry.keyed.keys.now b }
    {
        self.keyed.encrypt(b)
    }

    pub(crate) fn encrypt_two(self, b: Block, c: Block) -> Both
        ensures { (halves_block result.one ≡ cipher self.entry.keyed.keys.now b) × (halves_block result.other ≡ cipher self.entry.keyed.keys.now c) }
    {
        self.keyed.encrypt_two(b, c)
    }
}
